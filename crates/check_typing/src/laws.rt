//! What types and cores keep.
ghost use Rattle.std.specs.Prelude.{◌≡◌, ◌↔◌, ℕ, List, ◌∷◌, map, true, false, Some, None};
ghost use Rattle.hume_base.specs.declared.types.Ty.{Ty};
ghost use Rattle.hume_ast.specs.declared.tree.TyExp.{TyExp};
ghost use Rattle.hume_ast.specs.declared.tree.Pat.{Pat};
ghost use Rattle.hume_ast.specs.declared.tree.Exp.{Exp};
ghost use Rattle.hume_ast.specs.declared.tree.Decl.{Decl};
ghost use Rattle.hume_model.specs.declared.core_tree.PatC.{PatC};
ghost use Rattle.hume_model.specs.declared.core_tree.FunC.{FunC};
ghost use Rattle.hume_model.specs.declared.core_tree.BoxC.{BoxC};
ghost use Rattle.hume_model.specs.declared.core_tree.Core.{Core};
ghost use Rattle.hume_model.specs.Typing.{IsPattern};
ghost use Rattle.hume_model.specs.BoxTyping.{port_types, PositionsHave, BoxIsTyped};
ghost use Rattle.typed_core.specs.declared.typed_tree.TypedExpr.{TypedExpr};
ghost use Rattle.typed_core.specs.declared.typed_tree.TypedResult.{TypedResult};
ghost use Rattle.typed_core.specs.declared.typed_tree.TypedRule.{TypedRule};
ghost use Rattle.typed_core.specs.declared.typed_tree.TypedHandler.{TypedHandler};
ghost use Rattle.typed_core.specs.Declarations.{AreEquationsOf, EquationsAreTyped, TypedHandlerFits, TypedRuleFits};
ghost use Rattle.typed_core.specs.Erasing.{erased_equation, erased_handler, erased_rule};
ghost use Rattle.typed_core.specs.ResultTyping.{ResultIsTyped};
ghost use Rattle.typed_core.specs.Typing.{IsTyped as TreeIsTyped};
ghost use Rattle.check_typing.specs.CoreSignatures.{scope_types, IsOfSignature, HasSignatures};
ghost use Rattle.check_typing.specs.Patterns.{CoredPosition, pattern, positions};
ghost use Rattle.check_typing.specs.Signatures.{Scope};
ghost use Rattle.check_typing.specs.Cores.{Cored};
ghost use Rattle.check_typing.specs.Typing.{HasByItself, IsCheckedAgainst, is_open, int32};
ghost use Rattle.check_typing.specs.Results.{CoredRes, IsResult};
ghost use Rattle.check_typing.specs.Declarations.{InPlaces, some_so, cores_alone, signature_written, ports_written};
ghost use Rattle.check_typing.specs.Declarations.{WrittenEquation, CoredEquation, IsEquation};
ghost use Rattle.check_typing.specs.Declarations.{WrittenRule, CoredRule, IsRule, WrittenHandler, CoredHandler, IsHandler};
ghost use Rattle.check_typing.specs.Declarations.{IsFunction, IsBox, CoredDeclaration, IsTyped, HasNoType};
ghost use Rattle.check_typing.specs.inner.Walk.{walk};
ghost use Rattle.check_typing.specs.inner.ResultWalk.{result_walk};
ghost use Rattle.check_typing.specs.inner.DeclarationWalk.{equation_walk, rule_walk, handler_walk, function_walk, box_walk, declaration_walk};
ghost use Rattle.check_typing.specs.declared.signatures.Signature.{Signature};
ghost use Rattle.check_typing.specs.declared.signatures.Signatures.{Signatures};

/// An expression has one type by itself at most, with one core, and one core against a type. So it is with the cores of
/// results, equations, rules, handlers, functions and boxes, and with whether a declaration has a literal that is out of range.
pub fn typing_is_unique()
    ensures by_itself { (s : Signatures) (scope : Scope) (e : Exp) (t u : Ty) (c d : Cored)
        → HasByItself s scope e t c → HasByItself s scope e u d → (t ≡ u) × (c ≡ d) }
    ensures against { (s : Signatures) (scope : Scope) (e : Exp) (t : Ty) (c d : Cored)
        → IsCheckedAgainst s scope e t c → IsCheckedAgainst s scope e t d → c ≡ d }
    ensures result { (s : Signatures) (scope : Scope) (e : Exp) (tys : List Ty) (c d : CoredRes)
        → IsResult s scope e tys c → IsResult s scope e tys d → c ≡ d }
    ensures equation { (s : Signatures) (f : Signature) (e : WrittenEquation) (c d : CoredEquation)
        → IsEquation s f e c → IsEquation s f e d → c ≡ d }
    ensures rule { (s : Signatures) (ins outs : List Ty) (r : WrittenRule) (c d : CoredRule)
        → IsRule s ins outs r c → IsRule s ins outs r d → c ≡ d }
    ensures handler { (s : Signatures) (outs : List Ty) (h : WrittenHandler) (c d : CoredHandler)
        → IsHandler s outs h c → IsHandler s outs h d → c ≡ d }
    ensures function { (s : Signatures) (name : List ℕ) (tys : List TyExp) (es : List WrittenEquation) (cs ds : List CoredEquation)
        → IsFunction s name tys es cs → IsFunction s name tys es ds → cs ≡ ds }
    ensures boxes { (s : Signatures) (ins outs : List (List ℕ × TyExp)) (rs : List WrittenRule) (hs : List WrittenHandler)
        (cs ds : List CoredRule) (es fs : List CoredHandler)
        → IsBox s ins outs rs hs cs es → IsBox s ins outs rs hs ds fs → (cs ≡ ds) × (es ≡ fs) }
    ensures declaration { (s : Signatures) (decl : Decl) (c d : CoredDeclaration) → IsTyped s decl c → IsTyped s decl d → c ≡ d }
{}

/// What an expression has by itself it may be checked against, with the same core.
pub fn own_type_is_accepted()
    ensures { (s : Signatures) (scope : Scope) (e : Exp) (t : Ty) (c : Cored)
        → HasByItself s scope e t c → IsCheckedAgainst s scope e t c }
{}

/// An open expression, where no type is expected, is checked against `int 32`.
pub fn open_is_int32()
    ensures { (s : Signatures) (scope : Scope) (e : Exp) (t : Ty) (c : Cored)
        → is_open s e ≡ true → HasByItself s scope e t c ↔ ((t ≡ int32) × IsCheckedAgainst s scope e int32 c) }
{}

/// The walks find just the types and the cores that there are.
pub fn walk_is_typing()
    ensures opens { (s : Signatures) (e : Exp) → is_open s e ≡ (walk s e).is_open }
    ensures by_itself { (s : Signatures) (scope : Scope) (e : Exp) (t : Ty) (c : Cored)
        → HasByItself s scope e t c ↔ ((walk s e).own scope ≡ Some (t, c)) }
    ensures against { (s : Signatures) (scope : Scope) (e : Exp) (t : Ty) (c : Cored)
        → IsCheckedAgainst s scope e t c ↔ ((walk s e).against scope t ≡ Some c) }
    ensures along { (s : Signatures) (e : Exp) → (result_walk s e).walk ≡ walk s e }
    ensures result { (s : Signatures) (scope : Scope) (e : Exp) (tys : List Ty) (c : CoredRes)
        → IsResult s scope e tys c ↔ ((result_walk s e).result scope tys ≡ Some c) }
    ensures equation { (s : Signatures) (f : Signature) (e : WrittenEquation) (c : CoredEquation)
        → IsEquation s f e c ↔ (equation_walk s f e ≡ Some c) }
    ensures rule { (s : Signatures) (ins outs : List Ty) (r : WrittenRule) (c : CoredRule)
        → IsRule s ins outs r c ↔ (rule_walk s ins outs r ≡ Some c) }
    ensures handler { (s : Signatures) (outs : List Ty) (h : WrittenHandler) (c : CoredHandler)
        → IsHandler s outs h c ↔ (handler_walk s outs h ≡ Some c) }
{}

/// So they do for whole declarations, of which they find nothing where one has no type.
pub fn declaration_walk_is_typing()
    ensures function { (s : Signatures) (name : List ℕ) (tys : List TyExp) (es : List WrittenEquation) (cs : List CoredEquation)
        → IsFunction s name tys es cs ↔ (function_walk s name tys es ≡ Some cs) }
    ensures boxes { (s : Signatures) (ins outs : List (List ℕ × TyExp)) (rs : List WrittenRule) (hs : List WrittenHandler) (cs : List CoredRule)
        (ds : List CoredHandler)
        → IsBox s ins outs rs hs cs ds ↔ (box_walk s ins outs rs hs ≡ Some (cs, ds)) }
    ensures typed { (s : Signatures) (decl : Decl) (c : CoredDeclaration)
        → IsTyped s decl c ↔ (declaration_walk s decl ≡ Some c) }
    ensures untyped { (s : Signatures) (decl : Decl) → HasNoType s decl ↔ (declaration_walk s decl ≡ None) }
{}

/// Where no literal is out of the range of its type, the typed cores of expressions and results have their types in each core
/// that has the signatures.
pub fn cores_are_typed()
    ensures by_itself { (s : Signatures) (core : Core) (scope : Scope) (e : Exp) (t : Ty) (c : TypedExpr)
        → HasSignatures s core → HasByItself s scope e t (c, false) → TreeIsTyped core (scope_types scope) c t }
    ensures against { (s : Signatures) (core : Core) (scope : Scope) (e : Exp) (t : Ty) (c : TypedExpr)
        → HasSignatures s core → IsCheckedAgainst s scope e t (c, false) → TreeIsTyped core (scope_types scope) c t }
    ensures result { (s : Signatures) (core : Core) (scope : Scope) (e : Exp) (tys : List Ty) (c : TypedResult)
        → HasSignatures s core → IsResult s scope e tys (c, false) → ResultIsTyped core tys (scope_types scope) c }
{}

/// So it is with patterns, positions, equations, rules and handlers.
pub fn parts_are_typed()
    ensures patterns { (s : Signatures) (p : Pat) (t : Ty) (vars : Scope) (c : PatC)
        → pattern s p t ≡ Some (vars, (c, false)) → IsPattern s.types t c (scope_types vars) }
    ensures positions { (s : Signatures) (ps : List Pat) (ins : List Ty) (vars : Scope) (cs : List CoredPosition)
        → positions s ps ins ≡ Some (vars, cs) → some_so cs ≡ false → PositionsHave s.types ins (cores_alone cs) (scope_types vars) }
    ensures equations { (s : Signatures) (core : Core) (f : Signature) (function : FunC) (es : List WrittenEquation) (cs : List CoredEquation)
        → HasSignatures s core → IsOfSignature f function → InPlaces (IsEquation s f) es cs → some_so cs ≡ false
        → EquationsAreTyped core function.params function.gives (cores_alone cs) }
    ensures rule { (s : Signatures) (core : Core) (b : BoxC) (r : WrittenRule) (c : TypedRule)
        → HasSignatures s core → IsRule s (port_types b.ins) (port_types b.outs) r (c, false) → TypedRuleFits core b c }
    ensures handler { (s : Signatures) (core : Core) (b : BoxC) (h : WrittenHandler) (c : TypedHandler)
        → HasSignatures s core → IsHandler s (port_types b.outs) h (c, false) → TypedHandlerFits core b c }
{}

/// So it is with whole functions and boxes: where a core has what the trees of what is written erase to, these are typed
/// equations of its function, and its box is typed as `hume_model` says it.
pub fn declarations_are_typed()
    ensures function { (s : Signatures) (core : Core) (name : List ℕ) (tys : List TyExp) (es : List WrittenEquation) (cs : List CoredEquation)
        (f : Signature) (function : FunC)
        → HasSignatures s core → IsFunction s name tys es cs → some_so cs ≡ false → signature_written s.types name tys ≡ Some f
        → IsOfSignature f function → function.equations ≡ map erased_equation (cores_alone cs) → AreEquationsOf core function (cores_alone cs) }
    ensures boxes { (s : Signatures) (core : Core) (ins outs : List (List ℕ × TyExp)) (rs : List WrittenRule) (hs : List WrittenHandler)
        (cs : List CoredRule) (ds : List CoredHandler) (b : BoxC)
        → HasSignatures s core → IsBox s ins outs rs hs cs ds → some_so cs ≡ false → some_so ds ≡ false
        → ports_written s.types ins ≡ Some (port_types b.ins) → ports_written s.types outs ≡ Some (port_types b.outs)
        → b.rules ≡ map erased_rule (cores_alone cs) → b.handlers ≡ map erased_handler (cores_alone ds) → BoxIsTyped core b }
{}
