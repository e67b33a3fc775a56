// What is the same for a whole image, and the numbers and refusals of its objects.
ghost use Rattle.std.specs.Prelude.{◌≡◌, ℕ, List, map, nat_eq};
ghost use Rattle.std.specs.List.{list_any};
ghost use Rattle.lua_heap.specs.Plain.{coroutine, plain};
ghost use Rattle.graph_core.specs.Objects.{part};
ghost use Rattle.eris_write.specs.Refusals.{active, coroutine_refusal, shown, unnamed_refusal};
ghost use Rattle.eris_write.specs.Writing.{inside_in, naming_in, read_in, texts_in};

use crate::fault::Refusal;
use graph_core::{Numbering, Object, Permanents, Sort, item_at};
use lua_heap::{Coro, World};
use table_core::{CoroId, FuncId, Value};

/// What is the same for a whole image.
#[derive(Clone, Copy)]
pub(crate) struct Writer<'a> {
    pub(crate) world: &'a World,
    pub(crate) permanents: &'a Permanents,
    pub(crate) numbering: &'a Numbering,
}

impl Writer<'_> {
    /// The number of an object's record, 0 where it has none.
    pub(crate) fn number(&self, object: Object) -> usize
        ensures { result ≡ (naming_in self.now).number (part object) }
    {
        match self.numbering.order.get_index_of(&object) {
            Some(number) => number,
            None => 0,
        }
    }

    /// Whether a coroutine is one of those whose open cells the image names.
    pub(crate) fn is_inside(&self, coro: CoroId) -> bool
        ensures { result ≡ inside_in self.now coro.0 }
    {
        let coroutine = Object {
            sort: Sort::Coro,
            number: coro.0,
        };
        self.numbering.reached.contains(&coroutine)
    }

    /// Why a value that has no name is refused.
    pub(crate) fn refusal(&self, value: Value) -> Option<Refusal>
        ensures { shown result ≡ unnamed_refusal (plain self.now.world.now 0) (read_in self.now value) }
    {
        match value {
            Value::Prim(_) => Some(Refusal::LibraryFunction),
            Value::Func(id) => self.function_refusal(id),
            Value::Coro(id) => self.coroutine_refusal(id),
            Value::Nil => None,
            Value::Bool(_) => None,
            Value::Int(_) => None,
            Value::Str(_) => None,
            Value::Table(_) => None,
        }
    }

    /// Why a function without a name is refused: it is one of the prelude's.
    fn function_refusal(&self, id: FuncId) -> Option<Refusal>
        ensures { shown result ≡ unnamed_refusal (plain self.now.world.now 0) (read_in self.now (Value.Func id)) }
    {
        if is_among(&self.world.prelude.funcs, id) {
            return Some(Refusal::LibraryFunction);
        }
        None
    }

    /// Why a coroutine is refused, if it is there.
    pub(crate) fn coroutine_refusal(&self, id: CoroId) -> Option<Refusal>
        ensures { shown result ≡ coroutine_refusal (plain self.now.world.now 0) id.0 }
    {
        if id.0 >= self.world.coros.len() {
            return None;
        }
        refusal_of(self.world.coros.get(id.0))
    }
}

/// Why a coroutine is refused: it runs, or resumed another.
fn refusal_of(coro: &Coro) -> Option<Refusal>
    ensures { (texts : List (List ℕ)) → shown result ≡ active (coroutine texts coro.now) }
{
    match coro {
        Coro::Running(_) => Some(Refusal::ActiveCoroutine),
        Coro::Normal(_) => Some(Refusal::ActiveCoroutine),
        Coro::Fresh(_) => None,
        Coro::Suspended(_) => None,
        Coro::Dead => None,
        Coro::Failed { .. } => None,
    }
}

/// Whether a function is one of some. The prelude has few.
fn is_among(functions: &[FuncId], id: FuncId) -> bool
    ensures { result ≡ list_any (nat_eq id.0) (map (λ f. f.0) functions.now) }
{
    for at in 0..functions.len() {
        if item_at(functions, at).0 == id.0 {
            return true;
        }
    }
    false
}
