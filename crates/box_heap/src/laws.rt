//! Laws of the definitions, as contracts of functions that do nothing.
ghost use Rattle.std.specs.Prelude.{◌≡◌, ◌<◌, ◌++◌, ◌∷◌, [], ℕ, List, length, Some};
ghost use Rattle.hume_base.specs.declared.types.Value.{Value, Tuple, Vector, Con};
ghost use Rattle.box_heap.specs.Heaps.{HeapView, HasObjects, Object, object_at, words_of_object};
ghost use Rattle.box_heap.specs.Standing.{Stands, AllStand};

/// An object that is found at a place is found there still when others are put behind it; and what is put is found at its place.
pub fn objects_stay()
    ensures found { (objects more : List Object) (at : ℕ) (object : Object) → object_at objects at ≡ Some object
        → object_at (objects ++ more) at ≡ Some object }
    ensures kept { (old new : HeapView) (objects : List Object) (object : Object) → HasObjects old objects → object.0 < 4294967296
        → new.words ≡ old.words ++ words_of_object object → HasObjects new (objects ++ object ∷ []) }
    ensures put { (old : HeapView) (objects : List Object) (object : Object) → HasObjects old objects
        → object_at (objects ++ object ∷ []) (length old.words) ≡ Some object }
{}

/// Words stand for their values still when objects are put behind the others.
pub fn standing_words_stay()
    ensures one { (objects more : List Object) (value : Value) (word : ℕ) → Stands objects value word → Stands (objects ++ more) value word }
    ensures several { (objects more : List Object) (values : List Value) (words : List ℕ) → AllStand objects values words
        → AllStand (objects ++ more) values words }
{}

/// An object stands for a value once it is put, if its fields stand for the parts of the value.
pub fn put_objects_stand()
    ensures tuple { (heap : HeapView) (objects : List Object) (values : List Value) (fields : List ℕ) → HasObjects heap objects
        → AllStand objects values fields → Stands (objects ++ (0, fields) ∷ []) (Tuple values) (length heap.words) }
    ensures vector { (heap : HeapView) (objects : List Object) (values : List Value) (fields : List ℕ) → HasObjects heap objects
        → AllStand objects values fields → Stands (objects ++ (0, fields) ∷ []) (Vector values) (length heap.words) }
    ensures con { (heap : HeapView) (objects : List Object) (values : List Value) (fields : List ℕ) (number : ℕ) → HasObjects heap objects
        → AllStand objects values fields → Stands (objects ++ (number, fields) ∷ []) (Con number values) (length heap.words) }
{}
