//! What the trees of C files mean: the rules of C99 for the forms of `c_tree`, with an `int` of 16 or 32 bits.
//!
//! `Numbers.antt` has the types of numbers and conversions, `Operators.antt` constants and operators, `Objects.antt` what is read and
//! written within an object, `Memories.antt` where objects are, `Expressions.antt` and `Statements.antt` what each form means,
//! `Declarations.antt` types, `Calls.antt` functions, `Hooks.antt` the functions of the program around, and `Programs.antt` a file.
//! A number such as 6.5.5 in a comment there is the section of ISO/IEC 9899:1999 whose rule the definition stands for.
//! `Sound.antt` and `Reads.antt` have what laws say, and `Example.antt` a file of a few lines.
//!
//! What C leaves undefined has no meaning here: signed overflow, division by 0, shifts that are too far, elements out of bounds, unset
//! numbers, other members of a union than the last written one, and an order of evaluation that would matter. Neither has what C leaves
//! to implementations: a number that a signed type doesn't hold, and bits of negative numbers. Some definitions are stricter than C: no
//! name is declared where it is in scope, no body writes what its `for` counts in, a function is called only behind its definition,
//! the two sides of a `?:` are casts to one type, and nothing is assigned from an object that shares bytes with its place. So what has
//! a meaning here has it in C too, whatever the compiler.
//!
//! Proved: conversions and promotions keep a number that the type holds (`conversions_keep_numbers`, `promotions_keep_numbers`), and
//! operands always have a common type (`operands_have_a_common_type`). What a conversion or an operator gives is a number of its type
//! (`conversions_give_numbers_of_the_type`, `operators_give_numbers_of_their_types`); at a signed type it is the exact one or none
//! (`signed_numbers_overflow`, `small_products_overflow`, `least_quotients_overflow`), at an unsigned one the same modulo
//! (`unsigned_numbers_wrap`). Nothing is divided by 0 or shifted too far (`zero_divides_nothing`, `shifts_stay_within_the_type`). What
//! is written is read (`what_is_written_is_read`), and nothing else changes (`writes_change_only_their_place`,
//! `assignments_change_only_their_place`); of a union one member is read, of an array what lies within it, of an unset number nothing
//! (`one_member_of_a_union_is_read`, `elements_lie_within_bounds`, `unset_numbers_have_no_value`). Each value of a file is one of its
//! type, if hooks deliver such (`numbers_stay_within_their_types`). A call within an expression changes nothing
//! (`calls_within_expressions_change_nothing`), no call leaves an object behind (`calls_leave_no_objects`), and no function means
//! something else behind later declarations (`functions_keep_their_meaning`). A small file means what it says at either `int`
//! (`a_small_file_means_what_it_says`).
//!
//! Nothing runs here. It knows C as far as generated files go. It doesn't know whether a file compiles, how much memory it takes,
//! cores, or how a file is made from one.
#![tactic(auto)]

mod laws;

pub use laws::{
    a_small_file_means_what_it_says, assignments_change_only_their_place, calls_leave_no_objects,
    calls_within_expressions_change_nothing, conversions_give_numbers_of_the_type,
    conversions_keep_numbers, elements_lie_within_bounds, functions_keep_their_meaning,
    least_quotients_overflow, numbers_stay_within_their_types, one_member_of_a_union_is_read,
    operands_have_a_common_type, operators_give_numbers_of_their_types, promotions_keep_numbers,
    shifts_stay_within_the_type, signed_numbers_overflow, small_products_overflow,
    unset_numbers_have_no_value, unsigned_numbers_wrap, what_is_written_is_read,
    writes_change_only_their_place, zero_divides_nothing,
};
