// Counters that return to 0 at a limit, and those that run down; by one step or by several. (rules 4.1, 5.6 and 5.7)
ghost use Rattle.std.specs.Prelude.{◌≡◌};
ghost use Rattle.registers.specs.Counters.{reached_of, turned_of, less_of, more_of, within_of};

// Whether one more comes to the limit or is beyond it; a second's limit changes, so it stays beside the counter.
pub fn reached(x: u32, limit: u32) -> bool
    ensures { result ≡ reached_of x limit }
{
    limit.saturating_sub(1) <= x
}

// One more, or 0 where that comes to the limit or is beyond it.
pub fn turned(x: u32, limit: u32) -> u32
    ensures { result ≡ turned_of x limit }
{
    if reached(x, limit) { 0 } else { x + 1 }
}

// n less, down to 0.
pub fn less(x: u32, n: u32) -> u32
    ensures { result ≡ less_of x n }
{
    x.saturating_sub(n)
}

// n more, or x as it is where 32 bits do not hold that.
pub fn more(x: u32, n: u32) -> u32
    ensures { result ≡ more_of x n }
{
    x.checked_add(n).unwrap_or(x)
}

// Of n, as many as can be added and leave x below the limit.
pub fn within(x: u32, limit: u32, n: u32) -> u32
    ensures { result ≡ within_of x limit n }
{
    let room = limit.saturating_sub(1).saturating_sub(x);
    room.min(n)
}
