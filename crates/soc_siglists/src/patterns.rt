//! The patterns of one list.
ghost use Rattle.std.specs.Prelude.{◌≡◌, ◌||◌, ℕ, List, IfOk, IfSome, OnOk};
ghost use Rattle.std.specs.Map.{keys_of};
ghost use Rattle.soc_siglists.specs.Lists.{matches_one};
ghost use Rattle.soc_siglists.specs.inner.Literals.{begins_with, begins_with_one};

use crate::led::{LedMatcher, LedPattern};
use crate::literals::Literals;
use crate::matchers::{matchers_of, matches_one};
use crate::pattern::Pattern;
use regex_vm::Backtracker;
use soc_base::{NoMemory, Sorted, Text, Texts};
use std::alloc::Global;
use std::marker::Model;

/// The patterns of a list, of which those that match all frames that begin with a text lie in a table by that text.
/// Contracts see the texts of all, in order.
#[derive(Drop)]
pub struct Patterns {
    texts: Vec<Text>,
    literals: Literals,
    others: Vec<LedPattern>,
}

impl Model for Patterns {
    ghost use Rattle.std.specs.Prelude.{List, ℕ};
    ghost use Rattle.soc_siglists.specs.inner.Literals.{AreSplit};

    ghost Value = { List (List ℕ) };

    ghost view = { λ p. p.texts.items };

    ghost invariant = { λ p. AreSplit p.texts.items p.literals p.others.items };
}

impl Patterns {
    /// The patterns in this order.
    pub fn of(alloc: Global, made: Vec<Pattern>) -> Result<Patterns, NoMemory>
        ensures { IfOk result (λ patterns. patterns ≡ made.items) }
    {
        let mut texts = Vec::new(alloc);
        let mut sorted = Texts::new(alloc);
        let mut others = Vec::new(alloc);
        for pattern in made {
            texts.push(Text::of(alloc, pattern.as_str())?)?;
            let lead = pattern.lead(alloc)?;
            if lead.is_all {
                add(alloc, &mut sorted, lead.text)?;
            } else {
                others.push(LedPattern::of(alloc, &pattern, lead.text)?)?;
            }
        }
        let literals = literals_of(alloc, &sorted)?;
        Ok(Patterns {
            texts,
            literals,
            others,
        })
    }

    /// What asks the patterns of many frames.
    pub fn matchers(&self, alloc: Global) -> Result<PatternMatchers<'_>, NoMemory>
        ensures { IfOk result (λ matchers. matchers ≡ self.now) }
    {
        let others = matchers_of(alloc, &self.others)?;
        Ok(PatternMatchers {
            texts: self.texts.as_slice(),
            literals: &self.literals,
            others,
            backtracker: Backtracker::new(alloc),
            answers: Sorted::new(alloc),
        })
    }
}

/// Adds a name.
fn add(alloc: Global, names: &mut Texts, name: Text) -> Result<(), NoMemory>
    ensures { OnOk result ((frame : List ℕ) → begins_with_one (keys_of names.new) frame ≡
        (begins_with_one (keys_of names.old) frame || begins_with frame name)) }
{
    names.set(name, Text::of(alloc, "")?)?;
    Ok(())
}

/// The names, without those that begin with another.
fn literals_of(alloc: Global, names: &Texts) -> Result<Literals, NoMemory>
    ensures { IfOk result (λ literals. (frame : List ℕ)
        → begins_with_one literals frame ≡ begins_with_one (keys_of names.now) frame) }
{
    let mut literals = Literals::new(alloc);
    for (name, _) in names {
        literals.push(Text::of(alloc, name)?)?;
    }
    Ok(literals)
}

/// The patterns of a list, ready to be asked of many frames. Contracts see their texts.
#[derive(Drop)]
pub struct PatternMatchers<'a> {
    texts: &'a [Text],
    literals: &'a Literals,
    others: Vec<LedMatcher<'a>>,
    backtracker: Backtracker,
    /// What was answered of each frame that the others were asked of.
    answers: Sorted<bool>,
}

impl<'a> Model for PatternMatchers<'a> {
    ghost use Rattle.std.specs.Prelude.{List, ℕ};
    ghost use Rattle.soc_siglists.specs.inner.Literals.{AreSplit, AreAnswers};

    ghost Value = { List (List ℕ) };

    ghost view = { λ m. m.texts.now };

    ghost invariant = { λ m. AreSplit m.texts.now m.literals.now m.others.items
        × AreAnswers m.texts.now m.answers };
}

impl<'a> PatternMatchers<'a> {
    /// What was answered of a frame before.
    fn answer_of(&self, frame: &str) -> Option<bool>
        ensures { IfSome result (λ is. is ≡ matches_one self.now frame.now) }
    {
        self.answers.get(frame).copied()
    }

    /// Keeps an answer.
    fn keep(&mut self, alloc: Global, frame: &str, is_one: bool) -> Result<(), NoMemory>
        requires { is_one ≡ matches_one self.old frame.now }
        ensures { self.new ≡ self.old }
    {
        self.answers.set(Text::of(alloc, frame)?, is_one)
    }

    /// Whether one of the patterns matches where the frame begins. A frame that came before isn't matched again.
    pub fn match_one(&mut self, alloc: Global, frame: &str) -> Result<bool, NoMemory>
        ensures value { IfOk result (λ is. is ≡ matches_one self.old frame.now) }
        ensures same { self.new ≡ self.old }
    {
        if self.literals.begin(frame) {
            return Ok(true);
        }
        if let Some(is_one) = self.answer_of(frame) {
            return Ok(is_one);
        }
        let is_one = matches_one(alloc, &mut self.backtracker, &mut self.others, frame)?;
        self.keep(alloc, frame, is_one)?;
        Ok(is_one)
    }
}
