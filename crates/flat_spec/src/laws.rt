// Laws of memory and of turns, each an empty function whose contract is proved.
ghost use Rattle.std.specs.Prelude.{◌≡◌, ◌+◌, ◌^◌, ◌<◌, ◌≤◌, ◌⊎◌, ℕ, List, Some, true, map, length, is_some};
ghost use Rattle.std.specs.Prelude.{slice_index};
ghost use Rattle.rv_isa.specs.Table.{decoded};
ghost use Rattle.machine_spec.specs.declared.Ending.TheVariants.{Running};
ghost use Rattle.machine_spec.specs.Memory.{Range, shape_of, range_at, byte_of};
ghost use Rattle.machine_spec.specs.Widths.{number_of, low_bytes};
ghost use Rattle.flat_spec.specs.Stores.{allows_fetch, allows_store, bytes_from, can_store, fetched, put_bytes};
ghost use Rattle.flat_spec.specs.Machine.{Machine};
ghost use Rattle.flat_spec.specs.Calls.{quiet};
ghost use Rattle.flat_spec.specs.Turns.{executes, turn};
ghost use Rattle.flat_spec.specs.Runs.{State, after, step, steps};

/// A store changes the bytes at its addresses alone: every range stays where it is and what it is, every other
/// byte stays, and the stored ones are there where memory is.
pub fn stores_change_their_bytes_alone()
    ensures ranges { (m : List Range) (a : ℕ) (bytes : List ℕ)
        → map shape_of (put_bytes m a bytes) ≡ map shape_of m }
    ensures elsewhere { (m : List Range) (a : ℕ) (bytes : List ℕ) (k : ℕ)
        → (k < a) ⊎ (a + length bytes ≤ k) → byte_of (put_bytes m a bytes) k ≡ byte_of m k }
    ensures there { (m : List Range) (a : ℕ) (bytes : List ℕ)
        → ((k : ℕ) → a ≤ k → k < a + length bytes → is_some (range_at m k) ≡ true)
        → (i : ℕ) → i < length bytes
        → byte_of (put_bytes m a bytes) (a + i) ≡ Some (slice_index bytes i) }
{}

/// Memories with the same ranges, whatever their bytes, are there, can be stored to and run at the same
/// addresses; a byte is there exactly where a range is, and so wherever it can be stored.
pub fn ranges_say_what_may_be_accessed()
    ensures places { (m n : List Range) (a : ℕ) → map shape_of m ≡ map shape_of n
        → is_some (range_at m a) ≡ is_some (range_at n a) }
    ensures stores { (m n : List Range) (a : ℕ) → map shape_of m ≡ map shape_of n
        → allows_store (range_at m a) ≡ allows_store (range_at n a) }
    ensures fetches { (m n : List Range) (a : ℕ) → map shape_of m ≡ map shape_of n
        → allows_fetch (range_at m a) ≡ allows_fetch (range_at n a) }
    ensures pieces { (m n : List Range) (a size : ℕ) → map shape_of m ≡ map shape_of n
        → can_store m a size ≡ can_store n a size }
    ensures bytes { (m : List Range) (a : ℕ) → is_some (byte_of m a) ≡ is_some (range_at m a) }
    ensures storable { (m : List Range) (a : ℕ) → allows_store (range_at m a) ≡ true
        → is_some (range_at m a) ≡ true }
{}

/// Bytes are read as they stand: those at successive addresses as their list, four as the word that was
/// stored, and memories with the same bytes there are read alike, and run alike where they have the same ranges.
pub fn bytes_are_read_where_they_stand()
    ensures read { (m : List Range) (a : ℕ) (bytes : List ℕ)
        → ((i : ℕ) → i < length bytes → byte_of m (a + i) ≡ Some (slice_index bytes i))
        → bytes_from m a (length bytes) ≡ Some bytes }
    ensures word { (v : ℕ) → v < 2 ^ 32 → number_of (low_bytes 4 v) ≡ v }
    ensures alike { (m n : List Range) (a size : ℕ)
        → ((k : ℕ) → a ≤ k → k < a + size → byte_of m k ≡ byte_of n k)
        → bytes_from m a size ≡ bytes_from n a size }
    ensures run { (m n : List Range) (a : ℕ) → map shape_of m ≡ map shape_of n
        → ((k : ℕ) → a ≤ k → k < a + 4 → byte_of m k ≡ byte_of n k) → fetched m a ≡ fetched n a }
{}

/// Turns follow one another: some turns after others are as many as both, and one turn of a running machine is
/// that of the word that is fetched at its pc.
pub fn turns_follow_one_another()
    ensures more { (i j : ℕ) (s : State) → steps (i + j) s ≡ steps i (steps j s) }
    ensures one { (s : State) → steps 1 s ≡ after (turn s.input s.machine) s.output }
    ensures word { (input : List ℕ) (m : Machine) (w : ℕ) → m.ending ≡ Running
        → fetched m.memory m.pc ≡ Some w → turn input m ≡ executes input (decoded w) m }
    ensures quiet { (s : State) (next : Machine) → turn s.input s.machine ≡ quiet s.input next
        → step s ≡ record { machine = next; input = s.input; output = s.output } }
{}
