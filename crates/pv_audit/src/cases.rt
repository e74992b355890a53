// The cases of a printed item, read by their words.
ghost use Rattle.std.specs.Prelude.{◌≡◌, true, false, ◌≤◌, ◌<◌, ◌^◌, ◌++◌, ◌∷◌, [], ℕ, ℤ, List, All, map, take, drop, length, sum, codes, IfOk, MatchOption, IfSome, IfNone};
ghost use Rattle.std.specs.List.{Contains};
ghost use Rattle.pv_audit.specs.Printed.{AreCases, IsCase, IsTxn};
ghost use Rattle.pv_audit.specs.Words.{case_words, cases_words, when_words};
ghost use Rattle.pv_base.specs.Polyvalue as model;
ghost use Rattle.pv_base.specs.Polyvalue.{IsPolyvalue};
ghost use Rattle.pv_base.specs.declared.limits.TheConstants.{HELD_NAMES};
ghost use Rattle.pv_base.specs.declared.literal.Literal as code;
ghost use Rattle.pv_protocol.specs.LineText.{literal_text};
ghost use Rattle.pv_script.specs.LineFaults.{texts};

use crate::parts::{is_word, split_word};
use crate::words::{literal_in, signed_in};
use pv_base::{Case, CaseError, Literal, NoMemory};
use pv_cases::copy_cases;
use pv_tree::Poly;
use std::alloc::Global;

/// The cases that have these words. They are canonical, and name no more outcomes than a polyvalue may.
pub fn cases_in(alloc: Global, words: &[&[u8]]) -> Result<Option<Vec<Case<i64>>>, NoMemory>
    requires few { length words.now < 2 ^ 32 }
    ensures { IfOk result (λ found. MatchOption found
        ((cases : List (model.Case ℤ)) → texts words.now ≡ cases_words cases → AreCases cases → ⊥)
        (λ cases. (texts words.now ≡ cases_words cases.items) × AreCases cases.items)) }
{
    let Some(cases) = any_cases_in(alloc, words)? else {
        return Ok(None);
    };
    if !are_canonical(alloc, &cases)? {
        return Ok(None);
    }
    Ok(Some(cases))
}

// Whether a polyvalue has exactly these cases.
fn are_canonical(alloc: Global, cases: &[Case<i64>]) -> Result<bool, NoMemory>
    requires few_cases { length cases.now < 2 ^ 32 }
    requires few_literals { sum (map (λ case. length case.when) cases.now) < 2 ^ 32 }
    ensures canonical { IfOk result (λ are. are ≡ true → IsPolyvalue HELD_NAMES cases.now) }
    ensures other { IfOk result (λ are. are ≡ false → IsPolyvalue HELD_NAMES cases.now → ⊥) }
{
    match Poly::from_cases(alloc, copy_cases(alloc, cases)?) {
        Ok(_) => Ok(true),
        Err(CaseError::NoMemory) => Err(NoMemory),
        Err(_) => Ok(false),
    }
}

// The cases that have these words, canonical or not. No cases have no words.
fn any_cases_in(alloc: Global, words: &[&[u8]]) -> Result<Option<Vec<Case<i64>>>, NoMemory>
    ensures cases { IfOk result (λ found. IfSome found (λ cases. texts words.now ≡ cases_words cases.items)) }
    ensures each { IfOk result (λ found. IfSome found (λ cases. All IsCase cases.items)) }
    ensures some { IfOk result (λ found. IfSome found (λ cases. 0 < length cases.items)) }
    ensures none { IfOk result (λ found. IfNone found ((cases : List (model.Case ℤ)) → 0 < length cases → All IsCase cases → texts words.now ≡ cases_words cases → ⊥)) }
{
    let mut cases = Vec::new(alloc);
    let mut left = Some(words);
    while let Some(rest) = left {
        let (front, behind) = cut_at_semicolon(rest);
        let Some(case) = case_in(alloc, front)? else {
            return Ok(None);
        };
        cases.push(case)?;
        left = behind;
    }
    Ok(Some(cases))
}

// The words before the first `;`, and those behind it, if there is one.
fn cut_at_semicolon<'a, 'b>(words: &'b [&'a [u8]]) -> (&'b [&'a [u8]], Option<&'b [&'a [u8]]>)
    ensures front { Contains (texts result.0.now) (codes ";") → ⊥ }
    ensures behind { MatchOption result.1 (texts words.now ≡ texts result.0.now) (λ behind. texts words.now ≡ texts result.0.now ++ codes ";" ∷ texts behind.now) }
    ensures shorter { IfSome result.1 (λ behind. length behind.now < length words.now) }
{
    let (front, rest) = words.split_at(before_semicolon(words));
    match split_word(rest) {
        Some((_, behind)) => (front, Some(behind)),
        None => (front, None),
    }
}

// How many words stand before the first `;`.
fn before_semicolon(words: &[&[u8]]) -> usize
    ensures within { result ≤ length words.now }
    ensures front { Contains (texts (take result words.now)) (codes ";") → ⊥ }
    ensures next { (word : List ℕ) (behind : List (List ℕ)) → texts (drop result words.now) ≡ word ∷ behind → word ≡ codes ";" }
{
    for place in 0..words.len() {
        if is_word(words[place], ";") {
            return place;
        }
    }
    words.len()
}

// The case that has these words.
fn case_in(alloc: Global, words: &[&[u8]]) -> Result<Option<Case<i64>>, NoMemory>
    ensures case { IfOk result (λ found. IfSome found (λ case. (texts words.now ≡ case_words case) × IsCase case)) }
    ensures none { IfOk result (λ found. IfNone found ((case : model.Case ℤ) → IsCase case → texts words.now ≡ case_words case → ⊥)) }
{
    let Some((first, condition)) = split_word(words) else {
        return Ok(None);
    };
    let Some(value) = signed_in(first) else {
        return Ok(None);
    };
    let Some(when) = when_in(alloc, condition)? else {
        return Ok(None);
    };
    Ok(Some(Case { when, value }))
}

// The condition that has these words.
fn when_in(alloc: Global, words: &[&[u8]]) -> Result<Option<Vec<Literal>>, NoMemory>
    ensures when { IfOk result (λ found. IfSome found (λ when. (texts words.now ≡ when_words when.items) × All (λ literal. IsTxn literal.txn) when.items)) }
    ensures none { IfOk result (λ found. IfNone found ((when : List code.Literal) → All (λ literal. IsTxn literal.txn) when → texts words.now ≡ when_words when → ⊥)) }
{
    let Some((word, literals)) = split_word(words) else {
        return Ok(Some(Vec::new(alloc)));
    };
    if !is_word(word, "if") {
        return Ok(None);
    }
    if literals.is_empty() {
        return Ok(None);
    }
    literals_in(alloc, literals)
}

// The literals that the words are.
fn literals_in(alloc: Global, words: &[&[u8]]) -> Result<Option<Vec<Literal>>, NoMemory>
    ensures literals { IfOk result (λ found. IfSome found (λ literals. (texts words.now ≡ map literal_text literals.items) × All (λ literal. IsTxn literal.txn) literals.items)) }
    ensures none { IfOk result (λ found. IfNone found ((literals : List code.Literal) → All (λ literal. IsTxn literal.txn) literals → texts words.now ≡ map literal_text literals → ⊥)) }
{
    let mut literals = Vec::with_capacity(alloc, words.len())?;
    for word in words {
        let Some(literal) = literal_in(word) else {
            return Ok(None);
        };
        literals.push(literal)?;
    }
    Ok(Some(literals))
}
