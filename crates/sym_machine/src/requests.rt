// What a heap function is asked for by its arguments.
ghost use Rattle.std.specs.Prelude.{◌≡◌, ◌≤◌, ◌==◌, ◌&&◌, ℕ, List, Some, option_map, IfSome, if◌then◌else◌};
ghost use Rattle.plan_core.specs.declared.types.Plan.{Plan};
ghost use Rattle.sym_value.specs.declared.Value.{Value};
ghost use Rattle.sym_spec.specs.SymMachine.{SymMachine, lives_of, value_of};
ghost use Rattle.sym_spec.specs.HeapActions.{function, mallocs, callocs, reallocs, frees, is_front, outcome};
ghost use Rattle.sym_machine.specs.Placing.{outcome_of, NamesLiving};

use crate::hart::Hart;
use exec_image::HeapName;
use sym_value::Value;

/// A request of the heap.
#[derive(Clone, Copy, Debug)]
pub enum Request {
    /// A block of so many bytes.
    Grant { size: u64 },
    /// A block of so many bytes in place of another.
    Move { block: u32, size: u32 },
    /// A block's end.
    Release { block: u32 },
    /// Nothing.
    Nothing,
}

/// What was done: the answer, and the names of the blocks that were granted and released.
#[derive(Clone, Copy, Debug)]
pub struct Acted {
    pub answer: Value,
    pub grant: Option<u32>,
    pub release: Option<u32>,
}

/// The register of a function's first argument.
fn argument_of(name: HeapName) -> u8
    ensures register { result ≡ (function name).argument }
    ensures range { result ≤ 11 }
{
    match name {
        HeapName::Malloc | HeapName::Calloc | HeapName::Realloc | HeapName::Free => 10,
        HeapName::MallocR | HeapName::CallocR | HeapName::ReallocR | HeapName::FreeR => 11,
    }
}

fn malloc(size: Value) -> Option<Request>
    ensures exact { (file : List ℕ) (plan : Plan) (m : SymMachine) (second : Value) → mallocs file plan m size second
        ≡ option_map (λ r. outcome_of file plan r m) result }
    ensures lives { (m : SymMachine) → IfSome result (λ r. NamesLiving r m.memory) }
{
    match size {
        Value::Num(size) => Some(Request::Grant { size: size as u64 }),
        _ => None,
    }
}

/// The product is that of whole numbers.
fn calloc(number: Value, size: Value) -> Option<Request>
    ensures exact { (file : List ℕ) (plan : Plan) (m : SymMachine) → callocs file plan m number size
        ≡ option_map (λ r. outcome_of file plan r m) result }
    ensures lives { (m : SymMachine) → IfSome result (λ r. NamesLiving r m.memory) }
{
    match (number, size) {
        (Value::Num(number), Value::Num(size)) => Some(Request::Grant {
            size: number as u64 * size as u64,
        }),
        _ => None,
    }
}

impl<'a> Hart<'a> {
    /// Whether a pointer is the front of a living block.
    fn is_front(&self, block: u32, offset: u32) -> bool
        ensures { result ≡ is_front self.now.file block offset self.now.machine }
    {
        offset == 0 && self.memory.lives(block)
    }

    fn realloc(&self, block: Value, size: Value) -> Option<Request>
        ensures exact { reallocs self.now.file self.now.plan self.now.machine block size
            ≡ option_map (λ r. outcome_of self.now.file self.now.plan r self.now.machine) result }
        ensures lives { IfSome result (λ r. NamesLiving r self.now.machine.memory) }
    {
        match (block, size) {
            (Value::Num(0), Value::Num(size)) => Some(Request::Grant { size: size as u64 }),
            (Value::Ptr { block, offset }, Value::Num(size)) if self.is_front(block, offset) =>
                Some(Request::Move { block, size }),
            _ => None,
        }
    }

    fn free(&self, block: Value) -> Option<Request>
        ensures exact { (second : Value) → frees self.now.file self.now.plan self.now.machine block second
            ≡ option_map (λ r. outcome_of self.now.file self.now.plan r self.now.machine) result }
        ensures lives { IfSome result (λ r. NamesLiving r self.now.machine.memory) }
    {
        match block {
            Value::Num(0) => Some(Request::Nothing),
            Value::Ptr { block, offset } if self.is_front(block, offset) => Some(Request::Release {
                block,
            }),
            _ => None,
        }
    }

    /// What a function is asked for; none where an argument is bad.
    #[tactic(auto, unfolding(sym_spec::specs::HeapActions::outcome))]
    pub fn request(&self, name: HeapName) -> Option<Request>
        ensures exact { outcome self.now.file self.now.plan name self.now.machine
            ≡ option_map (λ r. outcome_of self.now.file self.now.plan r self.now.machine) result }
        ensures lives { IfSome result (λ r. NamesLiving r self.now.machine.memory) }
    {
        let argument = argument_of(name);
        let first = self.register(argument);
        let second = self.register(argument + 1);
        match name {
            HeapName::Malloc | HeapName::MallocR => malloc(first),
            HeapName::Calloc | HeapName::CallocR => calloc(first, second),
            HeapName::Realloc | HeapName::ReallocR => self.realloc(first, second),
            HeapName::Free | HeapName::FreeR => self.free(first),
        }
    }
}
