// Tests of counts.
ghost use Rattle.std.specs.Prelude.{◌≡◌, ◌≤◌};
ghost use Rattle.layout.specs.History.{history, rising};
ghost use Rattle.layout.specs.Limits.{most_growths};
ghost use Rattle.marks.specs.Marks.{zeros_after};

// Do the counts up to N[t] rise, from at least 1?
pub fn counts_rise(counts: &[usize; 8], t: usize) -> bool
    requires { t ≤ most_growths }
    ensures { result ≡ rising (history t counts.now) }
{
    counts[0] != 0 && counts[..t + 1].is_sorted_by(|a, b| *a < *b)
}

// Are the counts after N[t] zero?
pub fn zeros_after(counts: &[usize; 8], t: usize) -> bool
    requires { t ≤ most_growths }
    ensures { result ≡ zeros_after counts.now t }
{
    counts[t + 1..].iter().all(|count| *count == 0)
}
