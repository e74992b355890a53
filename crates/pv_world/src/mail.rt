// The messages that were sent, each kept once, as its bytes.
ghost use Rattle.std.specs.Prelude.{◌≡◌, ◌<◌, ◌≤◌, ◌+◌, ◌-◌, ◌++◌, ◌∷◌, ◌^◌, ℕ, [], Some, None, true, map, length, position, slice_get, IfOk, IfErr, OnOk};
ghost use Rattle.std.specs.List.{position_or_len};
ghost use Rattle.std.specs.Option.{option_map};
ghost use Rattle.pv_world.specs.Mail.{MailState, Posted, bytes_sent, with_done_post, without_posts_to};
ghost use Rattle.pv_world.specs.MailView.{begin_at, is_fresh, marks_from};
ghost use Rattle.pv_world.specs.declared.error.WorldError.TheVariants.{SentLimit};

use crate::WorldError;
use pv_base::{NoMemory, SiteId};
use std::alloc::Global;
use std::marker::Model;

// How many site numbers there are: all of a u8.
const SITE_NUMBERS: usize = 256;

// A message that was sent.
#[derive(Clone, Copy, Debug)]
struct Post {
    // The site that it goes to.
    to: SiteId,
    // Where its bytes end among those of all messages.
    end: usize,
    // Whether it was neither delivered nor lost. Where its site's messages were dropped after it was sent, it is done all the same.
    fresh: bool,
}

/// Every message that was sent, by its number, from 0. A message is fresh while it is not yet delivered, lost or dropped.
#[derive(Drop)]
pub(crate) struct Mail {
    /// The bytes of all messages, one after another.
    bytes: Vec<u8>,
    /// The messages.
    posts: Vec<Post>,
    /// By site, how many messages had been sent when those to it were dropped the last time.
    dropped: Vec<usize>,
    /// No message below this number is fresh.
    first: usize,
    /// How many bytes they may have together.
    limit: u64,
}

impl Model for Mail {
    ghost use Rattle.pv_world.specs.Mail.{MailState};
    ghost use Rattle.pv_world.specs.MailView.{posts_from, IsMail};

    ghost Value = { MailState };

    ghost view = { λ s. record { posts = posts_from s.bytes.items s.dropped.items 0 0 s.posts.items; limit = s.limit } };

    ghost invariant = { λ s. IsMail s.bytes.items s.dropped.items s.first s.posts.items };
}

impl Mail {
    /// No messages yet. They may have this many bytes together.
    pub fn new(alloc: Global, limit: u64) -> Result<Mail, NoMemory>
        ensures { IfOk result (λ mail. mail ≡ record { posts = []; limit = limit }) }
    {
        let mut dropped = Vec::new(alloc);
        dropped.resize(SITE_NUMBERS, 0)?;
        Ok(Mail {
            bytes: Vec::new(alloc),
            posts: Vec::new(alloc),
            dropped,
            first: 0,
            limit,
        })
    }

    /// How many messages were sent.
    pub fn len(&self) -> usize
        ensures { result ≡ length self.now.posts }
    {
        self.posts.len()
    }

    /// Sends a message to a site. `SentLimit` comes exactly where all bytes, with those of this message, are more than may be.
    pub fn post(&mut self, to: SiteId, bytes: &[u8]) -> Result<(), WorldError>
        ensures sent { OnOk result (self.new ≡ record self.old { posts = self.old.posts ++ (record { to = to.0; bytes = bytes.now; fresh = true }) ∷ [] }) }
        ensures within { OnOk result (bytes_sent self.old.posts + length bytes.now ≤ self.old.limit) }
        ensures limit { (total : ℕ) → IfErr result (λ error. error ≡ SentLimit total → (total ≡ bytes_sent self.old.posts + length bytes.now) × (self.old.limit < total)) }
    {
        let end = self.bytes.len() + bytes.len();
        let total = end as u64;
        if total > self.limit {
            return Err(WorldError::SentLimit(total));
        }
        // The room comes first: no bytes are added without their message.
        self.posts.reserve(1)?;
        self.bytes.extend_from_slice(bytes)?;
        self.posts.push_reserved(Post {
            to,
            end,
            fresh: true,
        });
        Ok(())
    }

    /// The bytes of the message of this number, if so many were sent.
    pub fn get(&self, number: u64) -> Option<&[u8]>
        ensures { option_map (λ bytes. bytes.now) result ≡ option_map (λ post. post.bytes) (slice_get self.now.posts number) }
    {
        let number = number as usize;
        let end = self.posts.get(number)?.end;
        Some(&self.bytes[begin_of(&self.posts, number)..end])
    }

    /// The message of this number is done, if there is one.
    pub fn finish(&mut self, number: u64)
        ensures { self.new ≡ record self.old { posts = with_done_post number self.old.posts } }
    {
        if let Some(post) = self.posts.get_mut(number as usize) {
            post.fresh = false;
        }
    }

    /// The least fresh message, if there is one. All calls together take time in proportion to the messages.
    pub fn next_fresh(&mut self) -> Option<u64>
        ensures found { result ≡ position (λ post. post.fresh) self.old.posts }
        ensures unchanged { self.new ≡ self.old }
    {
        self.first = first_fresh(&self.posts, &self.dropped, self.first);
        if self.first < self.posts.len() {
            Some(self.first as u64)
        } else {
            None
        }
    }

    /// All messages to the site are done.
    pub fn drop_to(&mut self, site: SiteId)
        ensures { self.new ≡ record self.old { posts = without_posts_to site.0 self.old.posts } }
    {
        self.dropped[site.0 as usize] = self.posts.len();
    }
}

// Where the bytes of the message of this number begin.
fn begin_of(posts: &[Post], number: usize) -> usize
    requires { number < length posts.now }
    ensures { result ≡ begin_at 0 posts.now number }
{
    match number {
        0 => 0,
        _ => posts[number - 1].end,
    }
}

// The number of the first fresh message, or how many there are. No message below `from` is fresh.
fn first_fresh(posts: &[Post], dropped: &[usize], from: usize) -> usize
    requires sites { length dropped.now ≡ 2 ^ 8 }
    requires from { from ≤ position_or_len (λ mark. mark) (marks_from dropped.now 0 posts.now) }
    ensures { result ≡ position_or_len (λ mark. mark) (marks_from dropped.now 0 posts.now) }
{
    for number in from..posts.len() {
        if is_fresh(posts[number], dropped, number) {
            return number;
        }
    }
    posts.len()
}

// Whether the message of this number is fresh.
fn is_fresh(post: Post, dropped: &[usize], number: usize) -> bool
    requires { length dropped.now ≡ 2 ^ 8 }
    ensures { result ≡ is_fresh dropped.now number post }
{
    post.fresh && dropped[post.to.0 as usize] <= number
}
