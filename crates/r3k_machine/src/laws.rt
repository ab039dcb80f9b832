//! Laws of the run: nothing runs here.

ghost use Rattle.std.specs.Prelude.{◌≡◌, ℕ, ◌+◌, ◌/◌, [], ◌++◌, All, Bool, IfSome, IsTrue, List, None, length, slice_index};
ghost use Rattle.input_log.specs.Event.{LogEvent};
ghost use Rattle.input_log.specs.Log.{window_of};
ghost use Rattle.r3k_word.specs.declared.layout.TheConstants.{PAGE_BYTES};
ghost use Rattle.r3k_machine.specs.declared.step.Done.{Done};
ghost use Rattle.r3k_machine.specs.declared.target.Target.{Target};
ghost use Rattle.r3k_machine.specs.Core.{Core};
ghost use Rattle.r3k_machine.specs.State.{State, landed, register};
ghost use Rattle.r3k_machine.specs.Run.{run, trace, console_of, senders_of, is_written, last_writer, later};
ghost use Rattle.r3k_machine.specs.Step.{next, outcome_of_instruction, outcome_of_step, ticked, report, with_fall};
ghost use Rattle.r3k_machine.specs.Traced.{DidNothing, hi_lo_of, traced, write_of};
ghost use Rattle.r3k_machine.specs.Quiet.{IsCodePage, IsQuick, IsQuietFor, LeadsOn, LeavesRest, elapsed, outcome_elapsed, state_elapsed};
ghost use Rattle.r3k_machine.specs.Reports.{IsPage};
ghost use Rattle.r3k_machine.specs.Locality.{IsApart, IsWithPages, is_touched, touches};

use crate::quick::CodePage;

/// A run and its trace split at any point, and so do the console, the steps that sent its bytes, and the last writer. They
/// depend on the events of their own times alone.
pub fn run_laws()
    ensures run { (pages : ℕ) (log : List LogEvent) (time : ℕ) (s : State) (m n : ℕ) →
        run pages log time s (m + n) ≡ run pages log (time + m) (run pages log time s m) n }
    ensures trace { (pages : ℕ) (log : List LogEvent) (time : ℕ) (s : State) (m n : ℕ) →
        trace pages log time s (m + n) ≡ trace pages log time s m ++ trace pages log (time + m) (run pages log time s m) n }
    ensures count { (pages : ℕ) (log : List LogEvent) (time : ℕ) (s : State) (n : ℕ) → length (trace pages log time s n) ≡ n }
    ensures console { (line : ℕ) (first rest : List Done) →
        console_of line (first ++ rest) ≡ console_of line first ++ console_of line rest }
    ensures senders { (line time : ℕ) (first rest : List Done) →
        senders_of line time (first ++ rest) ≡ senders_of line time first ++ senders_of line (time + length first) rest }
    ensures sent { (line time : ℕ) (steps : List Done) → length (senders_of line time steps) ≡ length (console_of line steps) }
    ensures writer { (target : Target) (first rest : List Done) →
        last_writer target (first ++ rest) ≡ later (length first) (last_writer target rest) (last_writer target first) }
    ensures own_times { (pages : ℕ) (log : List LogEvent) (time : ℕ) (s : State) (n : ℕ) →
        run pages (window_of time (time + n) log) time s n ≡ run pages log time s n }
    ensures own_times_of_trace { (pages : ℕ) (log : List LogEvent) (time : ℕ) (s : State) (n : ℕ) →
        trace pages (window_of time (time + n) log) time s n ≡ trace pages log time s n }
{}

/// A step leaves each register that its report does not name as the pending load left it, and likewise HI and LO. The load slot holds
/// at most a register that the report names.
pub fn destination_laws()
    ensures registers { (pages : ℕ) (events : List LogEvent) (s : State) (number : ℕ) → ¬ (number ≡ (report pages events s).wrote) →
        register (next pages events s).core number ≡ slice_index (landed s.core.registers s.core.load) number }
    ensures hi { (pages : ℕ) (events : List LogEvent) (s : State) → ¬ IsTrue (is_written 32 (report pages events s).wrote) →
        (next pages events s).core.hi ≡ s.core.hi }
    ensures lo { (pages : ℕ) (events : List LogEvent) (s : State) → ¬ IsTrue (is_written 33 (report pages events s).wrote) →
        (next pages events s).core.lo ≡ s.core.lo }
    ensures slot { (pages : ℕ) (events : List LogEvent) (s : State) →
        IfSome (next pages events s).core.load (λ load. load.register ≡ (report pages events s).wrote) }
{}

/// The trace of a step has the step's own report. It has exactly the registers that the report names, with the values that the state
/// after the step holds. A step with an exception writes, loads, stores and sends nothing.
pub fn trace_laws()
    ensures report { (pages : ℕ) (events : List LogEvent) (s : State) → (traced pages events s).done ≡ report pages events s }
    ensures write { (pages : ℕ) (events : List LogEvent) (s : State) →
        (traced pages events s).write ≡ write_of (report pages events s).wrote (next pages events s).core }
    ensures hi_lo { (pages : ℕ) (events : List LogEvent) (s : State) →
        (traced pages events s).hi_lo ≡ hi_lo_of (report pages events s).wrote (next pages events s).core }
    ensures exception { (pages : ℕ) (events : List LogEvent) (s : State) →
        IfSome (traced pages events s).exception (λ code. DidNothing (traced pages events s)) }
{}

/// In a quiet step a tick is all that comes before the instruction. An instruction that is quick then does the same before the ticks
/// and falls of Random of any steps as after them, so that these may come after it, and it leaves the steps quiet and the page
/// that is run in what it is. The next instruction comes after it. It leaves translation entries, caches and devices, and sends nothing.
pub fn quiet_laws()
    ensures none { (s : State) → state_elapsed 0 s ≡ s }
    ensures alone { (pages n : ℕ) (s : State) → IsQuietFor (n + 1) s.core →
        outcome_of_step pages [] (state_elapsed n s)
        ≡ with_fall (outcome_of_instruction pages (record { core = ticked (elapsed n s.core); words = s.words })) }
    ensures at_once { (pages n : ℕ) (s : State) → IsQuietFor (n + 1) s.core → IsQuick pages s →
        outcome_of_step pages [] (state_elapsed n s) ≡ outcome_elapsed (n + 1) (outcome_of_instruction pages s) }
    ensures stays_quiet { (pages n : ℕ) (s : State) → IsQuick pages s → IsQuietFor n s.core →
        IsQuietFor n (outcome_of_instruction pages s).state.core }
    ensures stays_code { (pages : ℕ) (s : State) (page : CodePage) → IsQuick pages s → IsCodePage pages s.core page →
        IsCodePage pages (outcome_of_instruction pages s).state.core page }
    ensures leads_on { (pages : ℕ) (s : State) → IsQuick pages s → LeadsOn s.core (outcome_of_instruction pages s).state.core }
    ensures leaves_rest { (pages : ℕ) (s : State) → IsQuick pages s → LeavesRest s.core (outcome_of_instruction pages s).state.core }
    ensures sends_nothing { (pages : ℕ) (s : State) → IsQuick pages s → (outcome_of_instruction pages s).done.sent ≡ None }
    // After n of the steps the others are quiet, and the page is what it is.
    ensures quiet_later { (n more : ℕ) (core : Core) → IsQuietFor (n + more) core → IsQuietFor more (elapsed n core) }
    ensures code_later { (pages n : ℕ) (core : Core) (page : CodePage) → IsCodePage pages core page → IsCodePage pages (elapsed n core) page }
{
    kn02_bus::laws::quiet_laws();
}

/// A step that touches no page of a set reports the same from the state with any other words in these pages, and the next
/// state is the same with these words in them. So it is with the trace and the end of a run. There is one such state alone.
/// Any page that a step touches is one of the machine, and that of the word that it stores into is one that it touches.
pub fn locality()
    ensures pages { (pages : ℕ) (events : List LogEvent) (s : State) → All (λ page. IfSome page (IsPage pages)) (report pages events s).touched }
    ensures stored { (pages : ℕ) (events : List LogEvent) (s : State) →
        IfSome (report pages events s).stored (λ address. IsPage pages (address / PAGE_BYTES)) }
    ensures stored_touched { (pages : ℕ) (events : List LogEvent) (s : State) →
        IfSome (report pages events s).stored (λ address. IsTrue (touches (address / PAGE_BYTES) (report pages events s))) }
    ensures report { (pages : ℕ) (events : List LogEvent) (set : ℕ → Bool) (s t : State) (other : List ℕ) →
        IsWithPages set s other t → IsApart set (λ page. touches page (report pages events s)) →
        report pages events t ≡ report pages events s }
    ensures next { (pages : ℕ) (events : List LogEvent) (set : ℕ → Bool) (s t : State) (other : List ℕ) →
        IsWithPages set s other t → IsApart set (λ page. touches page (report pages events s)) →
        IsWithPages set (next pages events s) other (next pages events t) }
    ensures trace { (pages : ℕ) (log : List LogEvent) (time : ℕ) (set : ℕ → Bool) (s t : State) (other : List ℕ) (n : ℕ) →
        IsWithPages set s other t → IsApart set (is_touched (trace pages log time s n)) →
        trace pages log time t n ≡ trace pages log time s n }
    ensures run { (pages : ℕ) (log : List LogEvent) (time : ℕ) (set : ℕ → Bool) (s t : State) (other : List ℕ) (n : ℕ) →
        IsWithPages set s other t → IsApart set (is_touched (trace pages log time s n)) →
        IsWithPages set (run pages log time s n) other (run pages log time t n) }
    ensures one { (set : ℕ → Bool) (s : State) (other : List ℕ) (t u : State) → IsWithPages set s other t → IsWithPages set s other u → t ≡ u }
{}
