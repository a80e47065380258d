//! What a run goes by, as its settings and tokens say it.
ghost use Rattle.std.specs.Prelude.{◌≡◌, IfOk, MatchResult, Ok, Err};
ghost use Rattle.std.specs.Option.{option_copied};
ghost use Rattle.soc_replay.specs.Setup.{IsSetupFault, setup_of, setup_with};

use crate::refusal::FilesFault;
use crate::settings::Settings;
use crate::texts::Texts;
use crate::token_text::read_tokens;
use soc_base::{Bytes, NoMemory};
use soc_desk::Limits;
use soc_schema::Tokens;
use soc_session::Rules;
use std::alloc::Global;

/// What a run goes by.
#[derive(Drop)]
pub struct Setup {
    pub rules: Rules,
    pub limits: Limits,
}

/// What `settings.toml` and `tokens.toml` say, or the first of them that is refused. Page and version are copied.
pub fn set_up(alloc: Global, texts: &Texts) -> Result<Setup, FilesFault>
    ensures { let said = setup_of texts.now.settings texts.now.tokens texts.now.page texts.now.version in
        MatchResult result (λ setup. said ≡ Ok setup) (IsSetupFault said) }
{
    let settings = Settings::read(alloc, texts.settings.as_slice())?;
    let tokens = read_tokens(alloc, texts.tokens.as_slice())?;
    let Ok(page) = copy_of(alloc, texts.page.as_ref()) else {
        return Err(FilesFault::NoMemory);
    };
    let Ok(version) = copy_of(alloc, texts.version.as_ref()) else {
        return Err(FilesFault::NoMemory);
    };
    Ok(with_tokens(settings, tokens, page, version))
}

fn copy_of(alloc: Global, bytes: Option<&Bytes>) -> Result<Option<Bytes>, NoMemory>
    ensures { IfOk result (λ copy. copy ≡ option_copied bytes.entry) }
{
    match bytes {
        Some(bytes) => Ok(Some(Bytes::of(alloc, bytes.as_slice())?)),
        None => Ok(None),
    }
}

fn with_tokens(
    settings: Settings,
    tokens: Tokens,
    page: Option<Bytes>,
    version: Option<Bytes>,
) -> Setup
    ensures { result ≡ setup_with settings tokens page version }
{
    Setup {
        limits: settings.limits,
        rules: Rules {
            rules: settings.rules,
            tokens,
            public: settings.public,
            session_bytes: settings.session_bytes,
            page,
            version,
        },
    }
}
