// What a live script says.
use pv_ast::Program;
use pv_base::{Catalog, ItemId, SiteId};
use pv_check::Plan;

/// What a client asks its site for: a program is to run there.
#[derive(Debug, Drop)]
pub struct Request {
    /// The place among all that the client wants, from 0.
    pub number: u32,
    /// Whether the program only answers: it assigns nothing and has a `return`.
    pub query: bool,
    /// The program's text, as it stands in the line.
    pub text: Vec<u8>,
    /// The program.
    pub program: Program,
    /// What it wants of each site.
    pub plan: Plan,
}

/// What a client wants of its site.
#[derive(Debug, Drop)]
pub enum Wish {
    /// A program is to run.
    Do(Request),
    /// An item of the site is looked at.
    Peek {
        /// The place among all that the client wants, from 0.
        number: u32,
        /// The item.
        item: ItemId,
    },
}

/// A client of one site.
#[derive(Debug, Drop)]
pub struct Client {
    /// The site, which coordinates the client's transactions.
    pub site: SiteId,
    /// What it wants, in order; at most [`MAX_REQUESTS`](pv_base::MAX_REQUESTS) things.
    pub requests: Vec<Wish>,
}

/// What is declared, how messages between sites fail, and what clients want, in the order of the lines.
#[derive(Debug, Drop)]
pub struct LiveScript {
    /// The sites, the limit of their journals, and the items.
    pub catalog: Catalog,
    /// From each site to each, the messages whose numbers, from 1, are multiples of this are lost. Where it is 0, none are.
    pub drop_each: u32,
    /// Of the others, those whose numbers are multiples of this come twice. Where it is 0, none do.
    pub double_each: u32,
    /// The clients, in order; there may be none, and at most [`MAX_CLIENTS`](pv_base::MAX_CLIENTS).
    pub clients: Vec<Client>,
}
