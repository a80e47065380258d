//! What an operator sets: throttle rules, public products and limits.
ghost use Rattle.std.specs.Prelude.{◌≡◌, IfOk, IfErr, OnOk, Ok, None, codes, is_some, true, unwrap_or};
ghost use Rattle.toml.specs.Data.{get_member};
ghost use Rattle.toml.specs.View.{view, table_view};
ghost use Rattle.soc_toml.specs.Keys.{number_of};
ghost use Rattle.soc_schema.specs.TokenFile.{products_of};
ghost use Rattle.soc_replay.specs.Settings as spec;
ghost use Rattle.soc_replay.specs.inner.Drafts as drafts;

use crate::documents::document;
use soc_base::{NoMemory, Text};
use soc_desk::Limits;
use soc_schema::Products;
use soc_throttle::{RuleError, RuleSet};
use std::alloc::Global;
use thiserror::Error;
use toml::{Table, Value};

/// The most crashes that may be accepted, and how many it is where the key is absent.
pub(crate) const MOST_CRASHES: u64 = 65_536;

/// The most bytes that a journal may have, and how many it is where the key is absent.
pub(crate) const MOST_JOURNAL_BYTES: u64 = 68_719_476_736;

/// The most bytes that a session may take, and how many it is where the key is absent.
const MOST_SESSION_BYTES: u64 = 4_294_967_296;

/// A setting that is a number from `low` to `high`, and `high` where its key is absent.
#[derive(Clone, Copy)]
struct NumberSetting {
    key: &'static str,
    low: u64,
    high: u64,
}

const CRASHES: NumberSetting = NumberSetting {
    key: "crashes",
    low: 1,
    high: MOST_CRASHES,
};

const JOURNAL_BYTES: NumberSetting = NumberSetting {
    key: "journal_bytes",
    low: 64,
    high: MOST_JOURNAL_BYTES,
};

const SESSION_BYTES: NumberSetting = NumberSetting {
    key: "session_bytes",
    low: 1,
    high: MOST_SESSION_BYTES,
};

/// The most rules.
const MOST_ENTRIES: usize = 256;

/// What an operator sets.
#[derive(Debug, Drop)]
pub struct Settings {
    /// The rules that decide what becomes of a crash.
    pub rules: RuleSet,
    /// The products whose crashes everybody may see.
    pub public: Products,
    /// The most bytes that a session takes, 1 to 4,294,967,296.
    pub session_bytes: u64,
    /// How much is kept: a journal of 64 to 68,719,476,736 bytes, and 1 to 65,536 crashes.
    pub limits: Limits,
}

/// Why the bytes of a file say no settings.
#[derive(Debug, Drop, Error)]
pub enum SettingsError {
    /// The bytes aren't UTF-8, or their text is no TOML.
    #[error("no TOML")]
    NotToml,
    /// This key, the first such in byte order, is unknown or has a bad value.
    #[error("bad setting {}", .key.as_str())]
    BadSetting { key: Text },
    /// All keys are good, and the rule at this index, the first such from 0, is none.
    #[error("bad rule {index}")]
    BadRule { index: u32 },
    /// An allocation was refused.
    #[error("out of memory")]
    NoMemory,
}

impl From<NoMemory> for SettingsError {
    ghost use Rattle.std.specs.Prelude.{◌≡◌};
    ghost use Rattle.soc_replay.specs.declared.settings.SettingsError.TheVariants.{NoMemory as Lacking};

    ghost from_gives = { λ _ error. error ≡ Lacking };

    fn from(_error: NoMemory) -> SettingsError {
        SettingsError::NoMemory
    }
}

impl From<RuleError> for SettingsError {
    ghost use Rattle.std.specs.Prelude.{◌≡◌};
    ghost use Rattle.soc_replay.specs.Settings.{of_rules};

    ghost from_gives = { λ reason error. error ≡ of_rules reason };

    fn from(error: RuleError) -> SettingsError {
        match error {
            RuleError::BadRule { index } => SettingsError::BadRule { index },
            RuleError::NoMemory => SettingsError::NoMemory,
        }
    }
}

impl Settings {
    /// The settings that the bytes of a file say. Empty bytes say the defaults: one rule `accept_all`, each product
    /// public, and the greatest numbers.
    #[tactic(auto, unfolding(crate::specs::Settings::settings_of))]
    pub fn read(alloc: Global, bytes: &[u8]) -> Result<Settings, SettingsError>
        ensures ok { IfOk result (λ settings. spec.settings_of bytes.now ≡ Ok settings) }
        ensures ranges { IfOk result spec.LieInRanges }
        ensures refused { IfErr result (spec.IsRefusal (spec.settings_of bytes.now)) }
    {
        match document(alloc, bytes)? {
            Some(table) => read_table(alloc, &table),
            None => Err(SettingsError::NotToml),
        }
    }
}

fn read_table(alloc: Global, table: &Table) -> Result<Settings, SettingsError>
    ensures ok { IfOk result (λ settings. spec.settings_in (table_view table.now) ≡ Ok settings) }
    ensures ranges { IfOk result spec.LieInRanges }
    ensures refused { IfErr result (spec.IsRefusal (spec.settings_in (table_view table.now))) }
{
    let draft = Draft::read(alloc, table)?;
    let rules = rules_of(alloc, table)?;
    Ok(draft.with_rules(rules))
}

/// The rules at the key, or those that keep each crash.
fn rules_of(alloc: Global, table: &Table) -> Result<RuleSet, RuleError>
    ensures ok { IfOk result (λ rules. spec.rules_or_all
        (get_member (codes "rule") (table_view table.now)) ≡ Ok rules) }
    ensures refused { IfErr result (spec.IsRuleRefusal (spec.rules_or_all
        (get_member (codes "rule") (table_view table.now)))) }
{
    match soc_toml::value_at(table, "rule") {
        Some(value) => RuleSet::read(alloc, value),
        None => Ok(RuleSet::accept_all(alloc)?),
    }
}

impl NumberSetting {
    /// Takes the number of a value, and says whether it is one in the range.
    fn take(&self, value: &Value, place: &mut u64) -> bool
        ensures good { result ≡ is_some (number_of self.now.low self.now.high (view value.now)) }
        ensures taken { place.new ≡ unwrap_or (number_of self.now.low self.now.high
            (view value.now)) place.old }
        ensures range { spec.IsWithin self.now.low self.now.high place.old
            → spec.IsWithin self.now.low self.now.high place.new }
    {
        match soc_toml::number_of(value, self.low, self.high) {
            Some(number) => {
                *place = number;
                true
            }
            None => false,
        }
    }
}

/// What the keys say that were read so far, but for the rules, and the defaults of the others.
#[derive(Drop)]
struct Draft {
    public: Products,
    session_bytes: u64,
    journal_bytes: u64,
    crashes: u64,
}

impl Draft {
    fn new() -> Draft
        ensures { result ≡ drafts.defaults }
    {
        Draft {
            public: Products::All,
            session_bytes: SESSION_BYTES.high,
            journal_bytes: JOURNAL_BYTES.high,
            crashes: CRASHES.high,
        }
    }

    /// What a table says, or its first key in byte order that is unknown or has a bad value. A table holds its keys in
    /// that order.
    fn read(alloc: Global, table: &Table) -> Result<Draft, SettingsError>
        ensures good { IfOk result (λ draft. spec.first_bad (table_view table.now) ≡ None) }
        ensures ok { IfOk result (λ draft. draft ≡ drafts.filled drafts.defaults
            (table_view table.now)) }
        ensures ranges { IfOk result drafts.IsInRanges }
        ensures refused { IfErr result (spec.IsRefusal (spec.settings_in (table_view table.now))) }
    {
        let mut draft = Draft::new();
        for (key, value) in table.iter() {
            if !draft.take(alloc, key.as_str(), value)? {
                return Err(SettingsError::BadSetting {
                    key: Text::of(alloc, key.as_str())?,
                });
            }
        }
        Ok(draft)
    }

    /// Takes what a key holds, and says whether the key is known and the value has its form.
    fn take(&mut self, alloc: Global, key: &str, value: &Value) -> Result<bool, NoMemory>
        ensures good { IfOk result (λ good. good ≡ spec.is_good key.now (view value.now)) }
        ensures taken { IfOk result (λ good. good ≡ true
            → drafts.Takes self.old self.new key.now (view value.now)) }
        ensures ranges { OnOk result (drafts.IsInRanges self.old → drafts.IsInRanges self.new) }
    {
        if key == CRASHES.key {
            Ok(CRASHES.take(value, &mut self.crashes))
        } else if key == JOURNAL_BYTES.key {
            Ok(JOURNAL_BYTES.take(value, &mut self.journal_bytes))
        } else if key == "public_products" {
            self.take_products(alloc, value)
        } else if key == "rule" {
            Ok(soc_toml::is_table_array(value, MOST_ENTRIES))
        } else if key == SESSION_BYTES.key {
            Ok(SESSION_BYTES.take(value, &mut self.session_bytes))
        } else {
            Ok(false)
        }
    }

    /// Takes the products that a value names: the text `all`, or an array of texts.
    fn take_products(&mut self, alloc: Global, value: &Value) -> Result<bool, NoMemory>
        ensures good { IfOk result (λ good. good ≡ is_some (products_of (view value.now))) }
        ensures taken { IfOk result (λ _. self.new ≡ record self.old {
          public = unwrap_or
              (products_of (view value.now)) self.old.public;
        }) }
    {
        match Products::read(alloc, value)? {
            Some(products) => {
                self.public = products;
                Ok(true)
            }
            None => Ok(false),
        }
    }

    /// The settings with these rules.
    fn with_rules(self, rules: RuleSet) -> Settings
        requires { drafts.IsInRanges self }
        ensures ok { result ≡ drafts.settings_by self rules }
        ensures ranges { spec.LieInRanges result }
    {
        Settings {
            rules,
            public: self.public,
            session_bytes: self.session_bytes,
            limits: Limits {
                journal_bytes: self.journal_bytes,
                crashes: self.crashes as u32,
            },
        }
    }
}
