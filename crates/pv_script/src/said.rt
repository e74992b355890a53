// What the lines of a script said so far, and what one more line of a schedule says.
ghost use Rattle.std.specs.Prelude.{◌≡◌, ℕ, List, [], ◌∷◌, MatchOption, IfOk, IfErr, IfSome, OnOk, OnErr, codes};
ghost use Rattle.pv_model.specs.Check.{IsPlan};
ghost use Rattle.pv_model.specs.LineCauses as model;
ghost use Rattle.pv_model.specs.LineForms as form;
ghost use Rattle.pv_model.specs.LineForms.{forms_of, leading_word};
ghost use Rattle.pv_model.specs.ProgramText.{IsProgramText};
ghost use Rattle.pv_model.specs.Schedule.{Declares, DeclaresJournal, DeclaresItem, IsEvent, IsIn, MayRun, Says, with_event, request_word};
ghost use Rattle.pv_model.specs.Text as written;
ghost use Rattle.pv_model.specs.Text.{IsText};
ghost use Rattle.pv_script.specs.declared.fault.Fault.TheVariants.{At};
ghost use Rattle.pv_script.specs.declared.schedule.LineCause.TheVariants.{UnknownWord};
ghost use Rattle.pv_script.specs.LineFaults.{texts, IsLineFault};
ghost use Rattle.pv_script.specs.Keywords.{spelled};
ghost use Rattle.pv_script.specs.Said.{Beside, nothing_beside, before_with, before_of, IsLimited, IsHead, IsProgramLine};
ghost use Rattle.pv_script.specs.ScheduleView.{event_of, HasPlan};
ghost use Rattle.pv_script.specs.ScriptKinds.{script_of};

use crate::arguments::{count_in, event_in, limit_in};
use crate::fault::Fault;
use crate::fields::{site_in, value_in};
use crate::keyword::{Keyword, keyword_of};
use crate::program::program_text;
use crate::schedule::{Event, LineCause};
use crate::script::Script;
use crate::words::{is_text, words_of};
use pv_ast::Program;
use pv_base::{Catalog, MAX_JOURNAL, MAX_SITES};
use pv_check::{Plan, check};
use pv_parse::parse;
use std::alloc::Global;

/// What the lines said so far that a script of each kind may say. The first of them said how many sites there are.
#[derive(Debug, Drop)]
pub struct Said {
    /// The sites, the limit of their journals, and the items so far.
    pub catalog: Catalog,
    /// The limit of the journals, if a line said it.
    pub journal: Option<u64>,
    /// Whether an event or a client came.
    pub begun: bool,
}

/// A program that may run.
#[derive(Debug, Drop)]
pub struct Runnable {
    /// Its text.
    pub text: Vec<u8>,
    /// The program.
    pub program: Program,
    /// What it wants of each site.
    pub plan: Plan,
}

impl Said {
    /// What the first line says.
    pub fn first(alloc: Global, script: Script, line: &[u8]) -> Result<Said, Fault>
        ensures declares { IfOk result (λ said. Declares (model.at_first (script_of script)) line.now (before_with (nothing_beside (script_of script)) said)) }
        ensures limited { IfOk result IsLimited }
        ensures fault { IfErr result (IsLineFault (model.at_first (script_of script)) line.now) }
    {
        let words = words_in(alloc, script, line)?;
        let sites = sites_in(&words)?;
        Ok(Said {
            catalog: Catalog::new(alloc, sites, MAX_JOURNAL),
            journal: None,
            begun: false,
        })
    }

    /// What one more line of a schedule says: an event, or nothing where it declares something.
    pub fn read(&mut self, alloc: Global, line: &[u8]) -> Result<Option<Event>, Fault>
        requires { IsLimited self.old }
        ensures declares { IfOk result (λ found. MatchOption found
            (Declares (before_of self.old) line.now (before_of self.new))
            (λ event. IsEvent (before_of self.old) line.now (event_of event) × (before_of self.new ≡ with_event (before_of self.old)))) }
        ensures limited { OnOk result (IsLimited self.new) }
        ensures plan { IfOk result (λ found. IfSome found (HasPlan self.new.catalog)) }
        ensures fault { IfErr result (IsLineFault (before_of self.old) line.now) }
        ensures unchanged { OnErr result (self.new ≡ self.old) }
    {
        let words = words_in(alloc, Script::Scheduled, line)?;
        let (keyword, args) = split(&words)?;
        match keyword {
            Keyword::Sites => return Err(Fault::At(LineCause::Twice)),
            Keyword::Journal => self.limit(args)?,
            Keyword::Item => self.declare(args)?,
            Keyword::Submit => {
                let event = self.request(alloc, line, args, false)?;
                self.begun = true;
                return Ok(Some(event));
            },
            Keyword::Query => {
                let event = self.request(alloc, line, args, true)?;
                self.begun = true;
                return Ok(Some(event));
            },
            Keyword::Command(command) => {
                let event = event_in(command, args, self.catalog.sites())?;
                self.begun = true;
                return Ok(Some(event));
            },
        }
        Ok(None)
    }

    /// The event that one more line of a schedule is. There is none where it declares something, which [`Said::read`] takes.
    pub fn event(&self, alloc: Global, line: &[u8]) -> Result<Option<Event>, Fault>
        requires { IsLimited self.now }
        ensures event { IfOk result (λ found. IfSome found (λ event. IsEvent (before_of self.now) line.now (event_of event))) }
        ensures plan { IfOk result (λ found. IfSome found (HasPlan self.now.catalog)) }
        ensures fault { IfErr result (IsLineFault (before_of self.now) line.now) }
    {
        let words = words_in(alloc, Script::Scheduled, line)?;
        let (keyword, args) = split(&words)?;
        match keyword {
            Keyword::Sites => Err(Fault::At(LineCause::Twice)),
            Keyword::Journal | Keyword::Item => Ok(None),
            Keyword::Submit => Ok(Some(self.request(alloc, line, args, false)?)),
            Keyword::Query => Ok(Some(self.request(alloc, line, args, true)?)),
            Keyword::Command(command) => Ok(Some(event_in(command, args, self.catalog.sites())?)),
        }
    }

    /// Sets the limit of the journals, as words after `journal` say.
    pub fn limit(&mut self, args: &[&[u8]]) -> Result<(), LineCause>
        requires { IsLimited self.old }
        ensures declares { (beside : Beside) (line : List ℕ) → IsHead (before_with beside self.old) line (codes "journal") (texts args.now) →
            OnOk result (DeclaresJournal (before_with beside self.old) line (before_with beside self.new)) }
        ensures limited { OnOk result (IsLimited self.new) }
        ensures fault { (beside : Beside) (line : List ℕ) → IsHead (before_with beside self.old) line (codes "journal") (texts args.now) →
            IfErr result (λ cause. IsLineFault (before_with beside self.old) line (At cause)) }
        ensures unchanged { OnErr result (self.new ≡ self.old) }
    {
        if self.journal.is_some() {
            return Err(LineCause::Twice);
        }
        if self.begun {
            return Err(LineCause::TooLate);
        }
        let limit = limit_in(args)?;
        self.catalog.limit_journals(limit);
        self.journal = Some(limit);
        Ok(())
    }

    /// Adds the item that words after `item` declare.
    pub fn declare(&mut self, args: &[&[u8]]) -> Result<(), Fault>
        requires { IsLimited self.old }
        ensures declares { (beside : Beside) (line : List ℕ) → IsHead (before_with beside self.old) line (codes "item") (texts args.now) →
            OnOk result (DeclaresItem (before_with beside self.old) line (before_with beside self.new)) }
        ensures limited { OnOk result (IsLimited self.new) }
        ensures fault { (beside : Beside) (line : List ℕ) → IsHead (before_with beside self.old) line (codes "item") (texts args.now) →
            IfErr result (IsLineFault (before_with beside self.old) line) }
        ensures unchanged { OnErr result (self.new ≡ self.old) }
    {
        if self.begun {
            return Err(Fault::At(LineCause::TooLate));
        }
        let [name, at, number] = args else {
            return Err(Fault::At(LineCause::WrongCount));
        };
        let Some(site) = site_in(at, self.catalog.sites()) else {
            return Err(Fault::At(LineCause::BadNumber));
        };
        let Some(value) = value_in(number) else {
            return Err(Fault::At(LineCause::BadNumber));
        };
        self.catalog.add(name, site, value)?;
        Ok(())
    }

    // The request in a line that begins with `submit` or `query`.
    fn request(
        &self,
        alloc: Global,
        line: &[u8],
        args: &[&[u8]],
        query: bool,
    ) -> Result<Event, Fault>
        requires limited { IsLimited self.now }
        requires head { IsHead (before_of self.now) line.now (request_word query) (texts args.now) }
        ensures event { IfOk result (λ event. Says (before_of self.now) line.now (event_of event)) }
        ensures plan { IfOk result (HasPlan self.now.catalog) }
        ensures fault { IfErr result (IsLineFault (before_of self.now) line.now) }
    {
        let [at, _, ..] = args else {
            return Err(Fault::At(LineCause::WrongCount));
        };
        let Some(site) = site_in(at, self.catalog.sites()) else {
            return Err(Fault::At(LineCause::BadNumber));
        };
        let found = self.runnable(alloc, program_text(line), query)?;
        Ok(Event::Submit {
            site,
            query,
            text: found.text,
            program: found.program,
            plan: found.plan,
        })
    }

    /// The program of a request with this text, if it may run.
    pub fn runnable(&self, alloc: Global, text: &[u8], query: bool) -> Result<Runnable, Fault>
        requires { IsLimited self.now }
        ensures text { IfOk result (λ found. found.text.items ≡ text.now) }
        ensures program { IfOk result (λ found. IsProgramText self.now.catalog text.now found.program × MayRun found.program query) }
        ensures plan { IfOk result (λ found. IsPlan found.program self.now.catalog.items found.plan.parts.items) }
        ensures fault { (beside : Beside) (line : List ℕ) → IsProgramLine (before_with beside self.now) line query text.now →
            IfErr result (IsLineFault (before_with beside self.now) line) }
    {
        let program = parse(alloc, text, &self.catalog)?;
        let plan = check(alloc, &program, &self.catalog, query)?;
        let text = Vec::from_slice(alloc, text)?;
        Ok(Runnable {
            text,
            program,
            plan,
        })
    }
}

/// The words of a line of such a script, if it is short and printable.
pub fn words_in<'a>(alloc: Global, script: Script, line: &'a [u8]) -> Result<Vec<&'a [u8]>, Fault>
    ensures words { IfOk result (λ found. IsText (form.most_bytes (script_of script)) line.now × (texts found.items ≡ written.words line.now)) }
    ensures fault { (before : model.Before) → before.script ≡ script_of script → IfErr result (IsLineFault before line.now) }
{
    if line.len() > script.most_bytes() {
        return Err(Fault::At(LineCause::TooLong));
    }
    if !is_text(line) {
        return Err(Fault::At(LineCause::NotText));
    }
    Ok(words_of(alloc, line)?)
}

// The count of sites that the words of the first line say.
fn sites_in(words: &[&[u8]]) -> Result<u8, LineCause>
    ensures sites { IfOk result (λ n. (word : List ℕ) × (texts words.now ≡ codes "sites" ∷ word ∷ []) × IsIn 1 MAX_SITES word n) }
    ensures fault { (kind : form.Script) (line : List ℕ) → IsText (form.most_bytes kind) line → texts words.now ≡ written.words line →
        IfErr result (λ cause. IsLineFault (model.at_first kind) line (At cause)) }
{
    let [first, args @ ..] = words else {
        return Err(LineCause::SitesExpected);
    };
    if *first != b"sites".as_slice() {
        return Err(LineCause::SitesExpected);
    }
    count_in(args)
}

// The first of the words, if a line of a schedule may begin with it, and the words after it.
fn split<'a, 'b>(words: &'b [&'a [u8]]) -> Result<(Keyword, &'b [&'a [u8]]), LineCause>
    ensures words { IfOk result (λ found. texts words.now ≡ spelled found.0 ∷ texts found.1.now) }
    ensures unknown { IfErr result (λ cause. (cause ≡ UnknownWord) × (forms_of form.scheduled (leading_word (texts words.now)) ≡ [])) }
{
    let [first, args @ ..] = words else {
        return Err(LineCause::UnknownWord);
    };
    match keyword_of(first) {
        Some(keyword) => Ok((keyword, args)),
        None => Err(LineCause::UnknownWord),
    }
}
