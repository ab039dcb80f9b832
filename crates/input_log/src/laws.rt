//! Laws of logs: nothing runs here.

ghost use Rattle.std.specs.Prelude.{◌≡◌, ◌+◌, ◌^◌, ◌<◌, ◌≤◌, ◌++◌, ℕ, List, Ok, slice_index};
ghost use Rattle.input_log.specs.declared.edit.Edit.{Edit};
ghost use Rattle.input_log.specs.Edits.{AreSameOutside, edited, times_of};
ghost use Rattle.input_log.specs.Event.{LogEvent};
ghost use Rattle.input_log.specs.declared.format.Version.{Version};
ghost use Rattle.input_log.specs.Log.{AreInOrder, AreWithin, IsLog, window_of, later_than};
ghost use Rattle.input_log.specs.Spelling.{Fits, IsSpelled, spelled_in, spelling};
ghost use Rattle.input_log.specs.Reading.{log_at};

/// What is written is read again, what is read is a log, and in one version a log has one spelling. A window within a window is a
/// window of the log, two that meet make one, and a window of a log is a log. So is an edited log, and its windows without the
/// times of the edit are as before, also in a list of events that is no log.
pub fn log_laws()
    ensures read { (log : List LogEvent) → IsLog log → log_at (spelling log) ≡ Ok log }
    ensures read_in { (version : Version) (log : List LogEvent) → IsLog log → Fits version log →
        log_at (spelled_in version log) ≡ Ok log }
    ensures spelled { (bytes : List ℕ) (log : List LogEvent) → ((i : ℕ) → slice_index bytes i < 2 ^ 8) →
        log_at bytes ≡ Ok log → IsSpelled bytes log }
    ensures kept { (bytes : List ℕ) (log : List LogEvent) → ((i : ℕ) → slice_index bytes i < 2 ^ 8) →
        log_at bytes ≡ Ok log → IsLog log }
    ensures window { (from to : ℕ) (log : List LogEvent) → IsLog log → IsLog (window_of from to log) }
    ensures within { (from to : ℕ) (log : List LogEvent) → AreWithin from to (window_of from to log) }
    ensures whole { (from to : ℕ) (log : List LogEvent) → AreWithin from to log → window_of from to log ≡ log }
    ensures narrowed { (from to first last : ℕ) (log : List LogEvent) → from ≤ first → last ≤ to →
        window_of first last (window_of from to log) ≡ window_of first last log }
    ensures split { (from middle to : ℕ) (log : List LogEvent) → AreInOrder log → from ≤ middle → middle ≤ to →
        window_of from middle log ++ window_of middle to log ≡ window_of from to log }
    ensures later { (time from to : ℕ) (log : List LogEvent) → from ≤ time + 1 →
        later_than time (window_of from to log) ≡ window_of (time + 1) to log }
    ensures edited { (edit : Edit) (log new : List LogEvent) → IsLog log → edited edit log ≡ Ok new → IsLog new }
    ensures outside { (edit : Edit) (log new : List LogEvent) → edited edit log ≡ Ok new →
        AreSameOutside (times_of edit log).0 (times_of edit log).1 log new }
{}
