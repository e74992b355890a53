// The words that lines begin with.
ghost use Rattle.std.specs.Prelude.{◌≡◌, ℕ, true, false, List, [], MatchOption, IfSome, IfNone};
ghost use Rattle.std.specs.List.{list_all, list_any};
ghost use Rattle.std.specs.Str.{bytes_eq};
ghost use Rattle.pv_model.specs.LineForms.{scheduled, live, forms_of};
ghost use Rattle.pv_script.specs.Keywords.{spelled, spelled_live, keyword_beside};

/// A word that a line of a schedule begins with.
#[derive(Clone, Copy, Debug, PartialEq, Eq)]
pub enum Keyword {
    /// `sites`
    Sites,
    /// `journal`
    Journal,
    /// `item`
    Item,
    /// `submit`
    Submit,
    /// `query`
    Query,
    /// Another word, which an event begins with.
    Command(Command),
}

/// A word that an event begins with which has no program.
#[derive(Clone, Copy, Debug, PartialEq, Eq)]
pub enum Command {
    /// `deliver`
    Deliver,
    /// `pump`
    Pump,
    /// `lose`
    Lose,
    /// `drop`
    Drop,
    /// `tick`
    Tick,
    /// `stop`
    Stop,
    /// `start`
    Start,
    /// `cut`
    Cut,
    /// `fail`
    Fail,
    /// `mend`
    Mend,
    /// `checkpoint`
    Checkpoint,
    /// `sent`
    Sent,
    /// `report`
    Report,
    /// `total`
    Total,
}

/// A word that a line of a live script begins with.
#[derive(Clone, Copy, Debug, PartialEq, Eq)]
pub enum LiveKeyword {
    /// `sites`
    Sites,
    /// `journal`
    Journal,
    /// `item`
    Item,
    /// `plan`
    Plan,
    /// `client`
    Client,
    /// `submit`
    Submit,
    /// `query`
    Query,
    /// `peek`
    Peek,
}

// Each word of schedules with what it is.
const KEYWORDS: [(&[u8], Keyword); 19] = [
    (b"sites", Keyword::Sites),
    (b"journal", Keyword::Journal),
    (b"item", Keyword::Item),
    (b"submit", Keyword::Submit),
    (b"query", Keyword::Query),
    (b"deliver", Keyword::Command(Command::Deliver)),
    (b"pump", Keyword::Command(Command::Pump)),
    (b"lose", Keyword::Command(Command::Lose)),
    (b"drop", Keyword::Command(Command::Drop)),
    (b"tick", Keyword::Command(Command::Tick)),
    (b"stop", Keyword::Command(Command::Stop)),
    (b"start", Keyword::Command(Command::Start)),
    (b"cut", Keyword::Command(Command::Cut)),
    (b"fail", Keyword::Command(Command::Fail)),
    (b"mend", Keyword::Command(Command::Mend)),
    (b"checkpoint", Keyword::Command(Command::Checkpoint)),
    (b"sent", Keyword::Command(Command::Sent)),
    (b"report", Keyword::Command(Command::Report)),
    (b"total", Keyword::Command(Command::Total)),
];

// Each word of live scripts with what it is.
const LIVE_KEYWORDS: [(&[u8], LiveKeyword); 8] = [
    (b"sites", LiveKeyword::Sites),
    (b"journal", LiveKeyword::Journal),
    (b"item", LiveKeyword::Item),
    (b"plan", LiveKeyword::Plan),
    (b"client", LiveKeyword::Client),
    (b"submit", LiveKeyword::Submit),
    (b"query", LiveKeyword::Query),
    (b"peek", LiveKeyword::Peek),
];

/// The keyword of schedules that a word is.
pub fn keyword_of(word: &[u8]) -> Option<Keyword>
    ensures { MatchOption result (forms_of scheduled word.now ≡ []) (λ keyword. word.now ≡ spelled keyword) }
{
    keyword_in(word, &KEYWORDS)
}

/// The keyword of live scripts that a word is.
pub fn live_keyword_of(word: &[u8]) -> Option<LiveKeyword>
    ensures { MatchOption result (forms_of live word.now ≡ []) (λ keyword. word.now ≡ spelled_live keyword) }
{
    keyword_in(word, &LIVE_KEYWORDS)
}

// The keyword beside a word in a table.
#[tactic(auto, unfolding(crate::specs::Keywords::keyword_beside))]
fn keyword_in<K: Copy>(word: &[u8], table: &[(&[u8], K)]) -> Option<K>
    ensures { result ≡ keyword_beside word.now table.now }
{
    table
        .iter()
        .find(|entry| word == entry.0)
        .map(|entry| entry.1)
}

/// What stands beside a word in a table, if the table has the word.
pub fn look_up<K: Copy>(word: &[u8], table: &[(&[u8], K)]) -> Option<K>
    ensures spelled { (spelled : K → List ℕ) → list_all (λ entry. bytes_eq entry.0.now (spelled entry.1)) table.now ≡ true → IfSome result (λ found. word.now ≡ spelled found) }
    ensures unlisted { IfNone result (list_any (λ entry. bytes_eq word.now entry.0.now) table.now ≡ false) }
{
    keyword_in(word, table)
}
