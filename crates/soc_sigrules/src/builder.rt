//! Signatures, by their frames one after another.
ghost use Rattle.std.specs.Prelude.{◌≡◌, true, ◌++◌, ◌∷◌, ◌||◌, [], ℕ, List, IfOk, OnOk};
ghost use Rattle.std.specs.Str.{bytes_eq};
ghost use Rattle.soc_siglists.specs.Lists.{is_prefix, is_sentinel};
ghost use Rattle.soc_sigrules.specs.Rules.{watchdog, after_rule, after_rules};
ghost use Rattle.soc_sigrules.specs.Signatures.{summary_of, signature_of};
ghost use Rattle.soc_sigrules.specs.inner.Fronts.{with_text};
ghost use Rattle.soc_sigrules.specs.inner.Steps.{proto_with, texts_with, texts_before, with_frame};

use crate::crash::{Crash, Marked};
use crate::input::{SigInput, Signature};
use crate::modules::module_text;
use crate::proto::Proto;
use crate::rule::{RULES, Rule};
use crate::stack::StackTexts;
use soc_base::{NoMemory, Text, TextList};
use soc_siglists::{ListMatchers, Lists};
use std::alloc::Global;
use std::marker::Model;

/// The watchdog's own frame.
const WATCHDOG: &str = "mozilla::(anonymous namespace)::RunWatchdog";

/// A signature whose frames come one after another. Contracts see what a signature needs of the frames so far.
#[derive(Drop)]
pub struct SignatureBuilder<'a> {
    alloc: Global,
    lists: ListMatchers<'a>,
    proto: Proto,
    watched: bool,
    has_sentinel: bool,
    texts: StackTexts,
}

impl<'a> Model for SignatureBuilder<'a> {
    ghost use Rattle.soc_sigrules.specs.Signatures.{Summary};

    ghost Value = { Summary };

    ghost view = { λ b. record {
      lists = b.lists;
      has_frames = b.proto.has_frames;
      proto =
          b.proto.text;
      watched = b.watched;
      has_sentinel = b.has_sentinel;
      texts = b.texts;
    } };
}

impl<'a> SignatureBuilder<'a> {
    /// No frames yet.
    pub fn new(alloc: Global, lists: &'a Lists) -> Result<SignatureBuilder<'a>, NoMemory>
        ensures { IfOk result (λ builder. builder ≡ summary_of lists.now []) }
    {
        Ok(SignatureBuilder {
            alloc,
            lists: lists.matchers(alloc)?,
            proto: Proto::new(alloc),
            watched: false,
            has_sentinel: false,
            texts: StackTexts::new(alloc),
        })
    }

    /// Adds the frame as it is.
    fn extend_proto(&mut self, frame: &str) -> Result<(), NoMemory>
        ensures { OnOk result (self.new
            ≡ record self.old {
              has_frames = true;
              proto = proto_with self.old.has_frames
                  self.old.proto frame.now;
            }) }
    {
        self.proto.push(frame)
    }

    /// Looks whether the frame is the watchdog's.
    fn watch(&mut self, frame: &str)
        ensures { self.new ≡ record self.old
            { watched = self.old.watched || bytes_eq frame.now watchdog } }
    {
        if frame == WATCHDOG {
            self.watched = true;
        }
    }

    /// Looks whether the frame is the first sentinel: what stands before that is forgotten.
    fn meet_sentinel(&mut self, frame: &str) -> Result<(), NoMemory>
        ensures { OnOk result (self.new
            ≡ record self.old {
              has_sentinel = self.old.has_sentinel
                  || is_sentinel self.old.lists frame.now;
              texts = texts_before self.old frame.now;
            }) }
    {
        if self.has_sentinel || !self.lists.is_sentinel(self.alloc, frame)? {
            return Ok(());
        }
        self.has_sentinel = true;
        self.texts = StackTexts::new(self.alloc);
        Ok(())
    }

    /// Adds a text at the end.
    fn append(&mut self, text: &str) -> Result<(), NoMemory>
        ensures { OnOk result (self.new
            ≡ record self.old {
              texts = with_text self.old.texts text.now
                  (is_prefix self.old.lists text.now);
            }) }
    {
        let is_prefix = self.lists.is_prefix(self.alloc, text)?;
        self.texts.push(self.alloc, text, is_prefix)
    }

    /// Adds what is kept of a frame.
    fn keep(&mut self, frame: &str) -> Result<(), NoMemory>
        ensures { OnOk result (self.new
            ≡ record self.old { texts = texts_with self.old.lists self.old.texts frame.now }) }
    {
        if self.texts.is_ended() || self.lists.is_irrelevant(self.alloc, frame)? {
            return Ok(());
        }
        let Some(module) = module_text(frame) else {
            return self.append(frame);
        };
        if self.texts.is_last(module) {
            return Ok(());
        }
        self.append(module)
    }

    /// Adds the text of the next frame.
    pub fn push(mut self, frame: &str) -> Result<SignatureBuilder<'a>, NoMemory>
        ensures step { IfOk result (λ builder. builder ≡ with_frame self.entry frame.now) }
        ensures frames { IfOk result (λ builder. (lists : _) (frames : List (List ℕ))
            → self.entry ≡ summary_of lists frames
            → builder ≡ summary_of lists (frames ++ frame.now ∷ [])) }
    {
        self.extend_proto(frame)?;
        self.watch(frame);
        self.meet_sentinel(frame)?;
        self.keep(frame)?;
        Ok(self)
    }

    /// The signature of a crash with these frames. The frames of `input` aren't looked at.
    pub fn end(self, input: &SigInput) -> Result<Signature, NoMemory>
        ensures { IfOk result (λ signature. (lists : _) (frames : List (List ℕ))
            → self.entry ≡ summary_of lists frames
            → signature ≡ signature_of lists (record input.now { frames = frames })) }
    {
        let crash = Crash {
            input,
            watched: self.watched,
        };
        let text = self.texts.into_text(self.alloc, input.thread_found)?;
        let marked = apply_rules(self.alloc, crash, text)?;
        Ok(Signature {
            text: marked.text,
            proto: self.proto.into_text(),
            notes: marked.notes,
        })
    }
}

/// The text after a rule, with its note where it applied.
fn apply_rule(
    alloc: Global,
    crash: Crash<'_>,
    marked: Marked,
    rule: Rule,
) -> Result<Marked, NoMemory>
    ensures { IfOk result (λ new. new
        ≡ after_rule crash.entry.watched crash.entry.input.now marked rule) }
{
    let Some(text) = rule.apply(alloc, crash, marked.text.as_str())? else {
        return Ok(marked);
    };
    let mut notes = marked.notes;
    if let Some(note) = rule.note() {
        notes.push(Text::of(alloc, note)?)?;
    }
    Ok(Marked { text, notes })
}

/// The text after each rule in turn.
fn apply_rules(alloc: Global, crash: Crash<'_>, text: Text) -> Result<Marked, NoMemory>
    ensures { IfOk result (λ marked. marked
        ≡ after_rules crash.entry.watched crash.entry.input.now text) }
{
    let mut marked = Marked {
        text,
        notes: TextList::new(alloc),
    };
    for rule in &RULES {
        marked = apply_rule(alloc, crash, marked, *rule)?;
    }
    Ok(marked)
}

/// The signature of a crash.
pub fn signature(alloc: Global, input: &SigInput, lists: &Lists) -> Result<Signature, NoMemory>
    ensures { IfOk result (λ signature. signature ≡ signature_of lists.now input.now) }
{
    let mut builder = SignatureBuilder::new(alloc, lists)?;
    for frame in &input.frames {
        builder = builder.push(frame)?;
    }
    builder.end(input)
}
