// The lines of clients.
ghost use Rattle.std.specs.Prelude.{◌≡◌, ◌<◌, ◌^◌, ◌++◌, All, OnOk, length};
ghost use Rattle.pv_live.specs.Naming.{AllNameOnlyItems, ToldNamesOnlyItems, WhatNamesOnlyItems};
ghost use Rattle.pv_live.specs.Told.{AreFew, all_heard_by, heard_by, heard_of};
ghost use Rattle.pv_base.specs.Catalog.{Declared};
ghost use Rattle.pv_closing.specs.Lines.{reading_of};
ghost use Rattle.pv_transcript.specs.Heard.{client_text, clients_text, heard_line, peeked};

use pv_base::{Catalog, NoMemory, SiteId};
use pv_script::Client;
use pv_shelf::{Face, Peek};
use pv_told::{ClientLine, ClientWhat};
use pv_transcript::{
    push_heard, push_no_memory, push_peeked, push_peeked_down, push_peeked_locked, push_worn,
};

/// The lines of all clients, each put after what the buffer holds.
pub(crate) fn push_clients(
    text: &mut Vec<u8>,
    clients: &[Client],
    told: &[Vec<ClientLine>],
    catalog: &Catalog,
) -> Result<(), NoMemory>
    requires items { AllNameOnlyItems catalog.now told.now }
    requires few { AreFew clients.now told.now }
    ensures { OnOk result (text.new.items ≡ text.old.items ++ clients_text catalog.now 0 (heard_of clients.now told.now)) }
{
    let mut number = 0;
    for client in clients {
        push_client(text, number, client.site, &told[number as usize], catalog)?;
        number += 1;
    }
    Ok(())
}

// The lines of a client of this site.
fn push_client(
    text: &mut Vec<u8>,
    client: u32,
    site: SiteId,
    told: &[ClientLine],
    catalog: &Catalog,
) -> Result<(), NoMemory>
    requires items { All (ToldNamesOnlyItems catalog.now) told.now }
    requires few { length told.now < 2 ^ 32 }
    ensures { OnOk result (text.new.items ≡ text.old.items ++ client_text catalog.now client 0 (all_heard_by site.0 told.now)) }
{
    let mut request = 0;
    for one in told {
        push_told(text, client, request, site, &one.what, catalog)?;
        request += 1;
    }
    Ok(())
}

// The line of one thing that the client wants.
fn push_told(
    text: &mut Vec<u8>,
    client: u32,
    request: u32,
    site: SiteId,
    what: &ClientWhat,
    catalog: &Catalog,
) -> Result<(), NoMemory>
    requires items { WhatNamesOnlyItems catalog.now what.now }
    ensures { OnOk result (text.new.items ≡ text.old.items ++ heard_line catalog.now client request (heard_by site.0 what.now)) }
{
    match what {
        ClientWhat::Line(line) => push_heard(text, client, request, line, catalog),
        ClientWhat::Peek(peek) => push_peek(text, client, request, site, peek),
        ClientWhat::Worn => push_worn(text, client, request, site),
        ClientWhat::NoMemory => push_no_memory(text, client, request),
    }
}

// The line of one look of a client of this site.
fn push_peek(
    text: &mut Vec<u8>,
    client: u32,
    request: u32,
    site: SiteId,
    peek: &Peek,
) -> Result<(), NoMemory>
    ensures { (catalog : Declared) → OnOk result (text.new.items ≡ text.old.items ++ heard_line catalog client request (peeked peek.now.steps (reading_of site.0 peek.now.face))) }
{
    match &peek.face {
        Face::Cases(value) => push_peeked(text, client, request, peek.steps, value.cases()),
        Face::Locked(holder) => push_peeked_locked(text, client, request, peek.steps, *holder),
        Face::Down => push_peeked_down(text, client, request, peek.steps, site),
    }
}
