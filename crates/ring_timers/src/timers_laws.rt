//! Laws of the timers' definitions, for all values, and a worked example.
//!
//! Rules: A node with a clock 2 to 7

ghost use Rattle.std.specs.Prelude.{◌≡◌, ℕ, ◌-◌, ◌^◌, ◌<◌, ◌≤◌, List, [], ◌∷◌, None, IsSome};
ghost use Rattle.std.specs.List.{cons_option};
ghost use Rattle.ring_base.specs.declared.timeout_kind.Kind.{Kind};
ghost use Rattle.ring_base.specs.declared.timeout_kind.Kind.TheVariants.{Join, Retransmit, Consensus, Loss};
ghost use Rattle.ring_timers.specs.declared.periods.Periods.{Periods};
ghost use Rattle.ring_timers.specs.Timers.{TimersView, timers_opened, beginning_of, time_at, due_at, due_timeouts, first_due, next_time};
ghost use Rattle.ring_timers.specs.TimerEvents.{TimerEvent, timeout_at, timers_after, timers_after_all, latest_time, HasCountedSince};
ghost use Rattle.ring_timers.specs.TimerExamples.{timers_at_0, timers_at_10, timers_at_20, timers_at_25, timers_at_40};

/// States what the timers are after any events, and which timeouts a caller gets.
///
/// - Each timeout has counted since the last event at which it began again, or since the opening. The present time is
///   the latest one passed, and the periods never change.
/// - A caller that asks repeatedly at one time gets each timeout that is due at it once, in order.
/// - Before `next_time` no timeout is due, and from then on one is.
///
/// Rules: A node with a clock 2, 4 to 7
pub fn timers_law()
    ensures beginnings { (periods : Periods) (opening : ℕ) (events : List TimerEvent) (kind : Kind)
        → HasCountedSince opening events kind (beginning_of (timers_after_all (timers_opened periods opening) events) kind) }
    ensures time { (periods : Periods) (opening : ℕ) (events : List TimerEvent)
        → (timers_after_all (timers_opened periods opening) events).time ≡ latest_time opening events }
    ensures periods { (periods : Periods) (opening : ℕ) (events : List TimerEvent)
        → (timers_after_all (timers_opened periods opening) events).periods ≡ periods }
    ensures once { (timers : TimersView) (now : ℕ)
        → due_timeouts timers now ≡ cons_option (first_due timers now) (due_timeouts (timers_after timers (timeout_at now (first_due timers now))) now) }
    ensures before { (timers : TimersView) (now : ℕ) → time_at timers now < next_time timers → first_due timers now ≡ None }
    ensures from { (timers : TimersView) (now : ℕ) → next_time timers < 2 ^ 64 - 1 → next_time timers ≤ time_at timers now → IsSome (first_due timers now) }
{}

/// States a worked example of timers with the default periods that open at time 0.
///
/// Rules: A node with a clock 3 to 7
pub fn timers_examples_law()
    ensures at_0 { (due_timeouts timers_at_0 9 ≡ []) × (next_time timers_at_0 ≡ 10) }
    ensures at_10 { (due_timeouts timers_at_0 10 ≡ Join ∷ []) × (due_timeouts timers_at_10 10 ≡ []) }
    ensures at_20 { (due_timeouts timers_at_10 20 ≡ Join ∷ Retransmit ∷ []) × (due_timeouts timers_at_20 20 ≡ []) }
    ensures at_25 { (next_time timers_at_25 ≡ 30) × (due_at timers_at_25 Retransmit ≡ 45) × (due_at timers_at_25 Consensus ≡ 125) × (due_at timers_at_25 Loss ≡ 325) }
    ensures at_40 { (due_timeouts timers_at_40 40 ≡ Join ∷ []) × (due_at timers_at_40 Retransmit ≡ 45) × (due_at timers_at_40 Consensus ≡ 140) × (due_at timers_at_40 Loss ≡ 340) }
{}
