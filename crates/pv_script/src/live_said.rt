// What the lines of a live script said so far, and what one more line says.
ghost use Rattle.std.specs.Prelude.{◌≡◌, ◌≢◌, ◌<◌, ℕ, Some, List, [], ◌∷◌, All, map, IfOk, IfErr, OnOk, codes};
ghost use Rattle.pv_base.specs.Catalog.{Declared, place_of};
ghost use Rattle.pv_model.specs.LineCauses.{home_of, last_requests, last_site};
ghost use Rattle.pv_model.specs.LineForms as form;
ghost use Rattle.pv_model.specs.LineForms.{forms_of, leading_word};
ghost use Rattle.pv_model.specs.Schedule.{Declares, DeclaresPlan, DeclaresClient, DeclaresRequest, DeclaresPeek, live_script_by, request_word, with_wish};
ghost use Rattle.pv_base.specs.declared.limits.TheConstants.{MAX_REQUESTS};
ghost use Rattle.pv_script.specs.declared.fault.Fault.TheVariants.{At, NoMemory};
ghost use Rattle.pv_script.specs.declared.schedule.LineCause.TheVariants.{UnknownWord};
ghost use Rattle.pv_script.specs.LineFaults.{texts, IsLineFault};
ghost use Rattle.pv_script.specs.Keywords.{spelled_live};
ghost use Rattle.pv_script.specs.LiveView.{client_of, wish_of, live_script_of, HasPlans, IsPlanned};
ghost use Rattle.pv_script.specs.LiveSaid.{before_of_live, IsSound, IsItemFault, IsNumberFault};
ghost use Rattle.pv_script.specs.Said.{IsHead};

use crate::fault::Fault;
use crate::fields::{number_in, site_in};
use crate::keyword::{LiveKeyword, live_keyword_of};
use crate::live::{Client, LiveScript, Request, Wish};
use crate::program::live_program_text;
use crate::said::{Said, words_in};
use crate::schedule::LineCause;
use crate::script::Script;
use pv_base::{Catalog, ItemId, MAX_CLIENTS, MAX_REQUESTS};
use std::alloc::Global;

/// Which messages between sites fail.
#[derive(Clone, Copy, Debug)]
pub struct FaultPlan {
    /// Those whose numbers are multiples of this are lost.
    pub drop_each: u32,
    /// Of the others, those whose numbers are multiples of this come twice.
    pub double_each: u32,
}

/// What the lines of a live script said so far.
#[derive(Debug, Drop)]
pub struct LiveSaid {
    /// What each kind of script may say. It has begun where there is a client.
    pub said: Said,
    /// How messages fail, if a line said it.
    pub fault_plan: Option<FaultPlan>,
    /// The clients so far.
    pub clients: Vec<Client>,
}

impl LiveSaid {
    /// Takes one more line.
    pub fn read(&mut self, alloc: Global, line: &[u8]) -> Result<(), Fault>
        requires { IsSound self.old }
        ensures declares { OnOk result (Declares (before_of_live self.old) line.now (before_of_live self.new)) }
        ensures sound { OnOk result (IsSound self.new) }
        ensures fault { IfErr result (IsLineFault (before_of_live self.old) line.now) }
    {
        let words = words_in(alloc, Script::Live, line)?;
        let (keyword, args) = split(&words)?;
        match keyword {
            LiveKeyword::Sites => return Err(Fault::At(LineCause::Twice)),
            LiveKeyword::Journal => self.said.limit(args)?,
            LiveKeyword::Item => self.said.declare(args)?,
            LiveKeyword::Plan => self.plan(args)?,
            LiveKeyword::Client => self.client(alloc, args)?,
            LiveKeyword::Submit => self.request(alloc, line, args, false)?,
            LiveKeyword::Query => self.request(alloc, line, args, true)?,
            LiveKeyword::Peek => self.peek(args)?,
        }
        Ok(())
    }

    /// The live script that was said. Where no line said how messages fail, none does.
    pub fn into_script(self) -> LiveScript
        requires { IsSound self }
        ensures script { live_script_of result ≡ live_script_by (before_of_live self) }
        ensures catalog { result.catalog ≡ self.said.catalog }
        ensures clients { result.clients ≡ self.clients }
    {
        let fault_plan = self.fault_plan.unwrap_or(FaultPlan {
            drop_each: 0,
            double_each: 0,
        });
        LiveScript {
            catalog: self.said.catalog,
            drop_each: fault_plan.drop_each,
            double_each: fault_plan.double_each,
            clients: self.clients,
        }
    }

    // Sets how messages fail, as words after `plan` say.
    fn plan(&mut self, args: &[&[u8]]) -> Result<(), LineCause>
        requires { IsSound self.old }
        ensures declares { (line : List ℕ) → IsHead (before_of_live self.old) line (codes "plan") (texts args.now) →
            OnOk result (DeclaresPlan (before_of_live self.old) line (before_of_live self.new)) }
        ensures sound { OnOk result (IsSound self.new) }
        ensures fault { (line : List ℕ) → IsHead (before_of_live self.old) line (codes "plan") (texts args.now) →
            IfErr result (λ cause. IsLineFault (before_of_live self.old) line (At cause)) }
    {
        if self.fault_plan.is_some() {
            return Err(LineCause::Twice);
        }
        if self.said.begun {
            return Err(LineCause::TooLate);
        }
        let [dropped, doubled] = args else {
            return Err(LineCause::WrongCount);
        };
        let Some(drop_each) = number_in(dropped, 0, u64::from(u32::MAX)) else {
            return Err(LineCause::BadNumber);
        };
        let Some(double_each) = number_in(doubled, 0, u64::from(u32::MAX)) else {
            return Err(LineCause::BadNumber);
        };
        self.fault_plan = Some(FaultPlan {
            drop_each: drop_each as u32,
            double_each: double_each as u32,
        });
        Ok(())
    }

    // Adds the client that words after `client` declare.
    fn client(&mut self, alloc: Global, args: &[&[u8]]) -> Result<(), Fault>
        requires { IsSound self.old }
        ensures declares { (line : List ℕ) → IsHead (before_of_live self.old) line (codes "client") (texts args.now) →
            OnOk result (DeclaresClient (before_of_live self.old) line (before_of_live self.new)) }
        ensures sound { OnOk result (IsSound self.new) }
        ensures fault { (line : List ℕ) → IsHead (before_of_live self.old) line (codes "client") (texts args.now) →
            IfErr result (IsLineFault (before_of_live self.old) line) }
    {
        let [at] = args else {
            return Err(Fault::At(LineCause::WrongCount));
        };
        if self.clients.len() >= MAX_CLIENTS {
            return Err(Fault::At(LineCause::TooManyClients));
        }
        let Some(site) = site_in(at, self.said.catalog.sites()) else {
            return Err(Fault::At(LineCause::BadNumber));
        };
        self.clients.push(Client {
            site,
            requests: Vec::new(alloc),
        })?;
        self.said.begun = true;
        Ok(())
    }

    // Adds the request in a line that begins with `submit` or `query` to the last client's.
    fn request(
        &mut self,
        alloc: Global,
        line: &[u8],
        args: &[&[u8]],
        query: bool,
    ) -> Result<(), Fault>
        requires sound { IsSound self.old }
        requires head { IsHead (before_of_live self.old) line.now (request_word query) (texts args.now) }
        ensures declares { OnOk result (DeclaresRequest (before_of_live self.old) line.now (before_of_live self.new)) }
        ensures sound { OnOk result (IsSound self.new) }
        ensures fault { IfErr result (IsLineFault (before_of_live self.old) line.now) }
    {
        if args.is_empty() {
            return Err(Fault::At(LineCause::WrongCount));
        }
        let number = next_number(&self.clients)?;
        let found = self.said.runnable(alloc, live_program_text(line), query)?;
        let request = Request {
            number,
            query,
            text: found.text,
            program: found.program,
            plan: found.plan,
        };
        push_wish(&mut self.clients, Wish::Do(request))
    }

    // Adds a look at the item that the word after `peek` names to what the last client wants.
    fn peek(&mut self, args: &[&[u8]]) -> Result<(), Fault>
        requires { IsSound self.old }
        ensures declares { (line : List ℕ) → IsHead (before_of_live self.old) line (codes "peek") (texts args.now) →
            OnOk result (DeclaresPeek (before_of_live self.old) line (before_of_live self.new)) }
        ensures sound { OnOk result (IsSound self.new) }
        ensures fault { (line : List ℕ) → IsHead (before_of_live self.old) line (codes "peek") (texts args.now) →
            IfErr result (IsLineFault (before_of_live self.old) line) }
    {
        let [name] = args else {
            return Err(Fault::At(LineCause::WrongCount));
        };
        let number = next_number(&self.clients)?;
        let item = item_here(&self.said.catalog, name, &self.clients)?;
        push_wish(&mut self.clients, Wish::Peek { number, item })
    }
}

// The number of one thing more that the last client wants, if there is one and it may want one more.
#[tactic(auto, using(crate::proofs::LiveSaidLemmas::last_clients))]
fn next_number(clients: &[Client]) -> Result<u32, LineCause>
    ensures some { IfOk result (λ _. map client_of clients.now ≢ []) }
    ensures number { IfOk result (λ n. n ≡ last_requests (map client_of clients.now)) }
    ensures room { IfOk result (λ n. n < MAX_REQUESTS) }
    ensures fault { IfErr result (IsNumberFault (map client_of clients.now)) }
{
    let [.., client] = clients else {
        return Err(LineCause::ClientExpected);
    };
    if client.requests.len() >= MAX_REQUESTS {
        return Err(LineCause::TooManyRequests);
    }
    Ok(client.requests.len() as u32)
}

// The item of this name, if there is one and it is at the site of the last client.
#[tactic(auto, using(crate::proofs::LiveSaidLemmas::last_clients))]
fn item_here(catalog: &Catalog, name: &[u8], clients: &[Client]) -> Result<ItemId, LineCause>
    ensures named { IfOk result (λ item. place_of name.now catalog.now.items ≡ Some item.0) }
    ensures here { IfOk result (λ item. home_of catalog.now.items item.0 ≡ last_site (map client_of clients.now)) }
    ensures fault { IfErr result (IsItemFault catalog.now.items name.now (map client_of clients.now)) }
{
    let Some(item) = catalog.find(name) else {
        return Err(LineCause::NoSuchItem);
    };
    let [.., client] = clients else {
        return Err(LineCause::OtherSite);
    };
    if catalog.site_of(item) != client.site {
        return Err(LineCause::OtherSite);
    }
    Ok(item)
}

// Adds one thing to what the last client wants.
fn push_wish(clients: &mut Vec<Client>, wish: Wish) -> Result<(), Fault>
    ensures clients { OnOk result (map client_of clients.new.items ≡ with_wish (map client_of clients.old.items) (wish_of wish)) }
    ensures plans { (catalog : Declared) → All (HasPlans catalog) clients.old.items → IsPlanned catalog wish →
        OnOk result (All (HasPlans catalog) clients.new.items) }
    ensures fault { IfErr result (λ fault. fault ≡ NoMemory) }
{
    if let Some(client) = clients.last_mut() {
        client.requests.push(wish)?;
    }
    Ok(())
}

// The first of the words, if a line of a live script may begin with it, and the words after it.
fn split<'a, 'b>(words: &'b [&'a [u8]]) -> Result<(LiveKeyword, &'b [&'a [u8]]), LineCause>
    ensures words { IfOk result (λ found. texts words.now ≡ spelled_live found.0 ∷ texts found.1.now) }
    ensures unknown { IfErr result (λ cause. (cause ≡ UnknownWord) × (forms_of form.live (leading_word (texts words.now)) ≡ [])) }
{
    let [first, args @ ..] = words else {
        return Err(LineCause::UnknownWord);
    };
    match live_keyword_of(first) {
        Some(keyword) => Ok((keyword, args)),
        None => Err(LineCause::UnknownWord),
    }
}
