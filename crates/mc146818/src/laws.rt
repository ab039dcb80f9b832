//! Laws of the clock: nothing runs here.

ghost use Rattle.std.specs.Prelude.{◌≡◌, ℕ, ◌+◌, ◌<◌, ◌≤◌, Some, false, true};
ghost use Rattle.mc146818.specs.Clock.{ClockState, runs};
ghost use Rattle.mc146818.specs.Divider.{second_of};
ghost use Rattle.mc146818.specs.Quiet.{next_period, next_second};
ghost use Rattle.mc146818.specs.Tick.{ends_period};
ghost use Rattle.mc146818.specs.Time.{advanced, format_of};
ghost use Rattle.mc146818.specs.Second.{after, BeginsSecond};

/// Over the ticks of a second the time advances once, by a second, with the last of them. A clock
/// whose divider is held keeps its time.
pub fn clock_laws()
    ensures within { (clock : ClockState) (ticks : ℕ) → BeginsSecond clock →
        ticks < second_of clock.unit → (after ticks clock).time ≡ clock.time }
    ensures second { (clock : ClockState) → BeginsSecond clock →
        (after (second_of clock.unit) clock).time ≡ advanced (format_of clock.b) clock.time }
    ensures held { (clock : ClockState) (ticks : ℕ) → runs clock ≡ false →
        (after ticks clock).time ≡ clock.time }
{}

/// While the clock runs, the second ends at the tick that `next_second` returns and not before, and a period at the tick that
/// `next_period` returns and not before. A period that would end with the second ends with it, as the divider is 0 then.
pub fn countdown_laws()
    ensures second_goes_on { (clock : ClockState) (left ticks : ℕ) → next_second clock ≡ Some left →
        clock.divider < second_of clock.unit → ticks < left → (after ticks clock).divider ≡ clock.divider + ticks }
    ensures second_ends { (clock : ClockState) (left : ℕ) → next_second clock ≡ Some left →
        clock.divider < second_of clock.unit → (after left clock).divider ≡ 0 }
    ensures period_goes_on { (clock : ClockState) (left ticks : ℕ) → next_period clock ≡ Some left →
        clock.divider + ticks < second_of clock.unit → 0 < ticks → ticks < left → ends_period (after ticks clock) ≡ false }
    ensures period_ends { (clock : ClockState) (left : ℕ) → next_period clock ≡ Some left →
        clock.divider < second_of clock.unit → clock.divider + left ≤ second_of clock.unit → ends_period (after left clock) ≡ true }
{}
