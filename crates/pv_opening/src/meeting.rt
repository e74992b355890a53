// The clients of a script, with rings to the boxes of their sites.
ghost use Rattle.std.specs.Prelude.{◌≡◌, ◌<◌, [], ◌∷◌, ◌++◌, All, IfOk, OnOk, length, map};
ghost use Rattle.pv_links.specs.Rows.{AddsTo};
ghost use Rattle.pv_model.specs.LiveScript.{requests_among};
ghost use Rattle.pv_script.specs.LiveView.{request_of, wish_of};
ghost use Rattle.pv_opening.specs.Meeting.{AreMet, IsAsking, IsTelling};

use pv_base::NoMemory;
use pv_crew::Client;
use pv_links::push_to;
use pv_mail::{Answer, copy_request};
use pv_post::{FaultPlan, In, Out, pair};
use pv_script::{Client as Asking, Request, Wish};
use std::alloc::Global;

/// On the rings to and from clients no message fails.
const NO_FAULTS: FaultPlan = FaultPlan {
    drop_each: 0,
    double_each: 0,
};

/// The clients, in order, each with a ring to its site and one back. The other ends are added to the rows of the sites: `asked` are those by which they take what their
/// clients ask for, and `told` those by which they tell them.
pub(crate) fn meet_all(
    alloc: Global,
    clients: &[Asking],
    asked: &mut Vec<Vec<In<Request>>>,
    told: &mut Vec<Vec<Out<Answer>>>,
) -> Result<Vec<Client<Request, Answer>>, NoMemory>
    requires rows { length told.old.items ≡ length asked.old.items }
    requires sites { All (λ client. client.site.0 < length asked.old.items) clients.now }
    requires empty { All (λ row. row.items ≡ []) asked.old.items × All (λ row. row.items ≡ []) told.old.items }
    ensures rows { OnOk result ((length asked.new.items ≡ length asked.old.items) × (length told.new.items ≡ length told.old.items)) }
    ensures met { IfOk result (λ met. AreMet clients.now met.items asked.new.items told.new.items) }
{
    let mut met = Vec::new(alloc);
    for k in 0..clients.len() {
        let client = meet(alloc, &clients[k], asked, told)?;
        met.push(client)?;
    }
    Ok(met)
}

// The client, whose rings go to the next places among its site's own.
fn meet(
    alloc: Global,
    client: &Asking,
    asked: &mut Vec<Vec<In<Request>>>,
    told: &mut Vec<Vec<Out<Answer>>>,
) -> Result<Client<Request, Answer>, NoMemory>
    requires { (client.now.site.0 < length asked.old.items) × (client.now.site.0 < length told.old.items) }
    ensures asking { IfOk result (λ met. IsAsking client.now met asked.old.items asked.new.items) }
    ensures telling { IfOk result (λ met. IsTelling client.now met told.old.items told.new.items) }
{
    let site = client.site.0 as usize;
    let (asks, inlet) = pair(alloc, NO_FAULTS)?;
    let (out, hears) = pair(alloc, NO_FAULTS)?;
    push_to(asked, site, inlet)?;
    push_to(told, site, out)?;
    let requests = copies(alloc, &client.requests)?;
    let met = Client::new(alloc, requests, asks, hears)?;
    Ok(met)
}

// Requests equal to those among these, in order.
fn copies(alloc: Global, wishes: &[Wish]) -> Result<Vec<Request>, NoMemory>
    ensures { IfOk result (λ copies. map request_of copies.items ≡ requests_among (map wish_of wishes.now)) }
{
    let mut copies = Vec::new(alloc);
    for wish in wishes {
        push_copy(alloc, &mut copies, wish)?;
    }
    Ok(copies)
}

// One more, where it is a request.
fn push_copy(alloc: Global, copies: &mut Vec<Request>, wish: &Wish) -> Result<(), NoMemory>
    ensures { OnOk result (map request_of copies.new.items ≡ map request_of copies.old.items ++ requests_among (wish_of wish.now ∷ [])) }
{
    if let Wish::Do(request) = wish {
        let copy = copy_request(alloc, request)?;
        copies.push(copy)?;
    }
    Ok(())
}
