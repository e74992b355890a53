// Where what clients hear stands in histories.
ghost use Rattle.std.specs.Prelude.{◌≡◌, ◌≢◌, ℕ, ◌<◌, All, Contains, List, None, Some, length};
ghost use Rattle.pv_law_histories.specs.Fitting.{history_of};
ghost use Rattle.pv_law_histories.specs.History.{Stamped};
ghost use Rattle.pv_law_histories.specs.Merge.{Moment, IsMerge, lines_of_merge};
ghost use Rattle.pv_mail.specs.Answers.{asker_of};
ghost use Rattle.pv_mail.specs.declared.asked.Asker.{Asker};
ghost use Rattle.pv_protocol.specs.Lines.{Line};
ghost use Rattle.pv_told.specs.Along.{line_by};
ghost use Rattle.pv_told.specs.Standing.{IsOwn, lines_of_history};

/// - `own`: the line that a history says of a request is printed with the request's entry or after it; a commit or a refusal is of a transaction that this entry began.
/// - `none`: of a request that doesn't stand in the history no line is said.
/// - `stands`, `merged`: the line is among all that the site prints, and among all that the merge prints.
///
/// The function does nothing: it states a law.
pub fn told_lines_stand_in_histories()
    ensures own { (me : ℕ) (asker : Asker) (history : List Stamped) (line : Line) → line_by me asker history ≡ Some line → IsOwn me asker line history }
    ensures none { (me : ℕ) (asker : Asker) (history : List Stamped) → All (λ entry. asker_of entry.intake ≢ Some asker) history → line_by me asker history ≡ None }
    ensures stands { (me : ℕ) (asker : Asker) (history : List Stamped) (line : Line) → line_by me asker history ≡ Some line →
        Contains (lines_of_history me history) line }
    ensures merged { (histories : List (List Stamped)) (moments : List Moment) (me : ℕ) (asker : Asker) (line : Line) → IsMerge histories moments →
        me < length histories → line_by me asker (history_of histories me) ≡ Some line → Contains (lines_of_merge moments) line }
{}
