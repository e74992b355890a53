// Text that is printed and waits to be taken.
ghost use Rattle.std.specs.Prelude.{◌≡◌, ◌≤◌, ◌++◌, [], All, length, map, min, take, drop, IfOk, OnErr, OnOk};
ghost use Rattle.pv_report.specs.NamesOnlyItems.{NamesOnlyItems};
ghost use Rattle.pv_run.specs.Forms.{lines_in};
ghost use Rattle.pv_run.specs.declared.form.Form.TheVariants.{Text};
ghost use Rattle.pv_script.specs.LineView.{line_of};

use pv_base::{Catalog, NoMemory};
use pv_run::Form;
use pv_script::Line;
use std::alloc::Global;
use std::marker::Model;

/// Bytes that wait to be taken, the oldest first.
#[derive(Drop)]
pub(crate) struct Kept {
    /// Where memory for lines comes from.
    alloc: Global,
    /// The bytes, behind some that were taken.
    bytes: Vec<u8>,
    /// How many of them were taken.
    taken: usize,
}

impl Model for Kept {
    ghost use Rattle.std.specs.Prelude.{ℕ, ◌≤◌, List, drop, vec_len};

    ghost Value = { List ℕ };

    ghost view = { λ s. drop s.taken s.bytes.items };

    ghost invariant = { λ s. s.taken ≤ vec_len s.bytes };
}

impl Kept {
    /// No bytes.
    pub(crate) fn new(alloc: Global) -> Kept
        ensures { result ≡ [] }
    {
        Kept {
            alloc,
            bytes: Vec::new(alloc),
            taken: 0,
        }
    }

    /// Adds the text of these lines. After an error nothing is added.
    pub(crate) fn push(&mut self, lines: &[Line], catalog: &Catalog) -> Result<(), NoMemory>
        requires { All (NamesOnlyItems catalog.now) (map line_of lines.now) }
        ensures text { OnOk result (self.new ≡ self.old ++ lines_in Text catalog.now (map line_of lines.now)) }
        ensures unchanged { OnErr result (self.new ≡ self.old) }
    {
        let text = text_of(self.alloc, lines, catalog)?;
        self.bytes.extend_from_slice(&text)?;
        Ok(())
    }

    /// Takes as many of the bytes as there is room for, and answers how many. All calls together take time in proportion to the bytes.
    pub(crate) fn take(&mut self, out: &mut [u8]) -> usize
        ensures count { result ≡ min (length out.old) (length self.old) }
        ensures copied { out.new ≡ take result self.old ++ drop result out.old }
        ensures rest { self.new ≡ drop result self.old }
    {
        let (_, left) = self.bytes.split_at(self.taken);
        let count = copy_front(left, out);
        self.taken += count;
        self.give_room();
        count
    }

    // The bytes that were taken give up their room once they are half of all.
    fn give_room(&mut self)
        ensures { self.new ≡ self.old }
    {
        let left = self.bytes.len() - self.taken;
        if left <= self.taken {
            self.bytes.rotate_left(self.taken);
            self.bytes.truncate(left);
            self.taken = 0;
        }
    }
}

// The lines as text.
fn text_of(alloc: Global, lines: &[Line], catalog: &Catalog) -> Result<Vec<u8>, NoMemory>
    requires { All (NamesOnlyItems catalog.now) (map line_of lines.now) }
    ensures { IfOk result (λ text. text.items ≡ lines_in Text catalog.now (map line_of lines.now)) }
{
    let mut text = Vec::new(alloc);
    for line in lines {
        Form::Text.push_line(&mut text, line, catalog)?;
    }
    Ok(text)
}

// Copies as many bytes as fit to the front of `out`, and answers how many.
fn copy_front(from: &[u8], out: &mut [u8]) -> usize
    ensures count { result ≡ min (length out.old) (length from.now) }
    ensures copied { out.new ≡ take result from.now ++ drop result out.old }
{
    let count = out.len().min(from.len());
    let (front, _) = from.split_at(count);
    out[..count].copy_from_slice(front);
    count
}
