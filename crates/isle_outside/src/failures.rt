ghost use Rattle.std.specs.Prelude.{◌≡◌, ◌+◌, ◌-◌, ◌^◌, min};
ghost use Rattle.isle_outside.specs.Failures.{is_failing};

/// The numbers of the calls that are to fail, and how many there were; the first call has number 1.
#[derive(Debug, Drop)]
pub struct Failures {
    numbers: Vec<usize>,
    calls: usize,
}

impl Failures {
    /// Begins with no call.
    pub fn new(numbers: Vec<usize>) -> Failures
        ensures numbers { result.numbers ≡ numbers }
        ensures calls { result.calls ≡ 0 }
    {
        Failures { numbers, calls: 0 }
    }

    /// Counts a call, up to 2^64 - 1, and says whether it is to fail.
    pub fn next_fails(&mut self) -> bool
        ensures failing { result ≡ is_failing self.old.calls self.old.numbers.items }
        ensures calls { self.new.calls ≡ min (self.old.calls + 1) (2 ^ 64 - 1) }
        ensures numbers { self.new.numbers ≡ self.old.numbers }
    {
        if self.calls == usize::MAX {
            return false;
        }
        self.calls += 1;
        self.numbers.contains(&self.calls)
    }
}
