//! What bodies are checked in (core specification 3.0, 3.1 Conventions, contexts).
ghost use Rattle.std.specs.Prelude.{◌≡◌, ◌&&◌, true, false, slice_get, option_map, is_some};
ghost use Rattle.gu_types.specs.Depth.{types_of};
ghost use Rattle.gu_rec.specs.Sub.{is_sub_ref, is_sub_val};
ghost use Rattle.gu_model.specs.Index.{FuncType, func_type, func_type_in, struct_type, array_type};
ghost use Rattle.gu_model.specs.TypingContext as around;
ghost use Rattle.gu_model.specs.TypingContext.{is_valid_heap};
ghost use Rattle.gu_valid_code.specs.Env.{function_of, label_of};

use gu_rec::Types;
use gu_types::{Abs, Comp, FieldType, HeapType, List, RefType, SubType, ValType};

/// The types of what a module's indices name (core specification 3.0, 3.1 Conventions, contexts).
/// Each list counts the imported things first.
#[derive(Drop)]
pub struct Env<'a> {
    /// The types of the module.
    pub types: &'a Types<'a>,
    /// The functions, by the indices of their types.
    pub funcs: List<u32>,
    /// The tables, by the types of their entries.
    pub tables: List<RefType>,
    /// How many memories there are.
    pub memories: u32,
    /// The tags, by the indices of their types.
    pub tags: List<u32>,
    /// The globals, by their types and whether they may be written.
    pub globals: List<(ValType, bool)>,
    /// The element segments, by the types of their items.
    pub elems: List<RefType>,
    /// How many data segments there are.
    pub segs: u32,
    /// Which functions are declared: a body may make references to them.
    pub declared: List<bool>,
}

/// A function type.
#[derive(Clone, Copy)]
pub(crate) struct Signature<'a> {
    /// The types of its parameters, in order.
    pub(crate) params: &'a [ValType],
    /// The types of its results, in order.
    pub(crate) results: &'a [ValType],
}

impl<'a> Signature<'a> {
    /// The types that the label of a block of this type takes: of a loop the parameters.
    pub(crate) fn label(self, is_loop: bool) -> &'a [ValType]
        ensures { result.now ≡ label_of is_loop (function_of self.entry) }
    {
        if is_loop { self.params } else { self.results }
    }
}

/// The top of the tree that an abstract heap type belongs to.
fn top_of_abs(abs: Abs) -> Abs
    ensures { result ≡ around.top_of_abs abs }
{
    match abs {
        Abs::Any | Abs::Eq | Abs::I31 | Abs::AnyStruct | Abs::AnyArray | Abs::Bot => Abs::Any,
        Abs::AnyFunc | Abs::NoFunc => Abs::AnyFunc,
        Abs::Extern | Abs::NoExtern => Abs::Extern,
        Abs::Exn | Abs::NoExn => Abs::Exn,
    }
}

/// Whether two heap types are written alike.
#[inline(always)]
fn is_alike(a: HeapType, b: HeapType) -> bool
    ensures { result ≡ true → a ≡ b }
{
    match (a, b) {
        (HeapType::Idx(i), HeapType::Idx(j)) => i == j,
        (HeapType::Abs(kind), HeapType::Abs(other)) => kind == other,
        _ => false,
    }
}

impl<'a> Env<'a> {
    /// The type with an index, in constant time.
    #[inline(always)]
    fn type_at(&self, index: u32) -> Option<&'a SubType>
        ensures { option_map (λ ty. ty.now) result ≡ slice_get (types_of self.now.types.now) index }
    {
        self.types.get(index)
    }

    /// The function type with an index, where it is one.
    pub(crate) fn function_at(&self, index: u32) -> Option<Signature<'a>>
        ensures { option_map function_of result ≡ func_type self.now.types.now index }
    {
        match &self.type_at(index)?.comp {
            Comp::Func { params, results } => Some(Signature {
                params: params.as_slice(),
                results: results.as_slice(),
            }),
            Comp::Struct(_) | Comp::Array(_) => None,
        }
    }

    /// The fields of the structure type with an index, where it is one.
    pub(crate) fn fields_at(&self, index: u32) -> Option<&'a [FieldType]>
        ensures { option_map (λ fields. fields.now) result ≡ struct_type self.now.types.now index }
    {
        match &self.type_at(index)?.comp {
            Comp::Struct(fields) => Some(fields.as_slice()),
            Comp::Func { .. } | Comp::Array(_) => None,
        }
    }

    /// The elements of the array type with an index, where it is one.
    pub(crate) fn elements_at(&self, index: u32) -> Option<FieldType>
        ensures { result ≡ array_type self.now.types.now index }
    {
        match &self.type_at(index)?.comp {
            Comp::Array(field) => Some(*field),
            Comp::Func { .. } | Comp::Struct(_) => None,
        }
    }

    /// The type of the entries of the table with an index.
    pub(crate) fn table(&self, index: u32) -> Option<RefType>
        ensures { result ≡ slice_get self.now.tables index }
    {
        self.tables.as_slice().get(index as usize).copied()
    }

    /// The type of the global with an index, and whether it may be written.
    pub(crate) fn global(&self, index: u32) -> Option<(ValType, bool)>
        ensures { result ≡ slice_get self.now.globals index }
    {
        let (ty, mutable) = *self.globals.as_slice().get(index as usize)?;
        Some((ty, mutable))
    }

    /// The type of the items of the element segment with an index.
    pub(crate) fn elem(&self, index: u32) -> Option<RefType>
        ensures { result ≡ slice_get self.now.elems index }
    {
        self.elems.as_slice().get(index as usize).copied()
    }

    /// The type of the function with an index.
    pub(crate) fn func(&self, index: u32) -> Option<Signature<'a>>
        ensures { option_map function_of result ≡ func_type_in self.now.types.now (slice_get self.now.funcs index) }
    {
        self.function_at(*self.funcs.as_slice().get(index as usize)?)
    }

    /// The type of the tag with an index.
    pub(crate) fn tag(&self, index: u32) -> Option<Signature<'a>>
        ensures { option_map function_of result ≡ func_type_in self.now.types.now (slice_get self.now.tags index) }
    {
        self.function_at(*self.tags.as_slice().get(index as usize)?)
    }

    /// The top of the tree that a heap type belongs to, or `None` where it is an index of no type.
    pub(crate) fn top_of(&self, heap: HeapType) -> Option<Abs>
        ensures { result ≡ around.top_of self.now.types.now heap }
    {
        match heap {
            HeapType::Abs(abs) => Some(top_of_abs(abs)),
            HeapType::Idx(index) => match &self.type_at(index)?.comp {
                Comp::Func { .. } => Some(Abs::AnyFunc),
                Comp::Struct(_) | Comp::Array(_) => Some(Abs::Any),
            },
        }
    }

    /// Whether a heap type is valid: it is no index of no type.
    pub(crate) fn is_valid_heap(&self, heap: HeapType) -> bool
        ensures { result ≡ around.is_valid_heap self.now.types.now heap }
    {
        self.top_of(heap).is_some()
    }

    /// Whether a value type is valid.
    pub(crate) fn is_valid_val(&self, ty: ValType) -> bool
        ensures { result ≡ around.is_valid_val self.now.types.now ty }
    {
        match ty {
            ValType::I32 | ValType::I64 => true,
            ValType::Ref(found) => self.is_valid_heap(found.heap),
        }
    }

    /// Whether the first value type is below the second.
    #[inline(always)]
    pub(crate) fn is_sub_val(&self, below: ValType, above: ValType) -> bool
        ensures { result ≡ is_sub_val self.now.types.now below above }
    {
        match (below, above) {
            (ValType::I32, ValType::I32) | (ValType::I64, ValType::I64) => true,
            (ValType::Ref(below), ValType::Ref(above)) => self.is_sub_ref(below, above),
            _ => false,
        }
    }

    /// Whether the first reference type is below the second, where one of them has an index of no
    /// type.
    #[tactic(auto, using(crate::proofs::Strays::stray))]
    fn is_sub_stray(&self, below: RefType, above: RefType) -> bool
        requires { is_valid_heap self.now.types.now below.heap && is_valid_heap self.now.types.now above.heap ≡ false }
        ensures { result ≡ is_sub_ref self.now.types.now below above }
    {
        (!below.null || above.null)
            && !self.is_valid_heap(below.heap)
            && !self.is_valid_heap(above.heap)
    }

    /// Whether the first reference type is below the second, whose heap type is written otherwise.
    #[inline(never)]
    #[tactic(auto, using(crate::proofs::Strays::of_val))]
    fn is_sub_other(&self, below: RefType, above: RefType) -> bool
        ensures { result ≡ is_sub_ref self.now.types.now below above }
    {
        if self.is_valid_heap(below.heap) && self.is_valid_heap(above.heap) {
            return self
                .types
                .is_sub_val(ValType::Ref(below), ValType::Ref(above));
        }
        self.is_sub_stray(below, above)
    }

    /// Whether the first reference type is below the second. Of an index of no type, which no valid
    /// module has, it is what the definition says.
    #[inline(always)]
    #[tactic(auto, using(crate::proofs::Strays::alike))]
    pub fn is_sub_ref(&self, below: RefType, above: RefType) -> bool
        ensures { result ≡ is_sub_ref self.now.types.now below above }
    {
        if is_alike(below.heap, above.heap) {
            return !below.null || above.null;
        }
        self.is_sub_other(below, above)
    }
}
