// Why a text is no manifest.
ghost use Rattle.std.specs.Prelude.{◌≡◌, ◌++◌, IfOk, codes};
ghost use Rattle.ow_http.specs.Reason.{text_of};
ghost use Rattle.ow_http.specs.declared.reason.Reason.TheVariants as reasons;
ghost use Rattle.ow_deploy.specs.Refusal.{manifest_refusal_number, manifest_refusal_text};

use ow_entity::EntityRefusal;
use ow_http::{CallRefusal, Reason, reason_text};
use ow_value::{NoMemory, Str, ValueRefusal};
use std::alloc::Global;

/// Why a text is no manifest. Of several faults the first in this order counts, and of these the first entity's.
#[derive(Drop)]
pub enum ManifestRefusal {
    /// More than `MOST_BYTES`.
    TooLarge,
    /// No TOML, or more nested than the reader of TOML goes.
    NotToml,
    /// A name at the top, or the path of a body, whose value is wrong.
    BadManifest {
        /// As the manifest writes it.
        field: Str,
    },
    /// A body nests deeper than 100.
    TooDeep,
    /// A path is no name, or a body gives no entity.
    BadDraft(EntityRefusal),
    /// This says nothing of the text.
    NoMemory,
}

impl ManifestRefusal {
    /// By which a caller distinguishes the refusals. `NoMemory` has 0.
    pub fn number(&self) -> u32
        ensures { result ≡ manifest_refusal_number self.now }
    {
        match self {
            ManifestRefusal::NoMemory => 0,
            ManifestRefusal::TooDeep => 3,
            ManifestRefusal::TooLarge => 13,
            ManifestRefusal::NotToml => 48,
            ManifestRefusal::BadManifest { .. } => 49,
            ManifestRefusal::BadDraft(refusal) => refusal.number(),
        }
    }
}

impl From<NoMemory> for ManifestRefusal {
    ghost use Rattle.std.specs.Prelude.{◌≡◌};
    ghost use Rattle.ow_deploy.specs.declared.refusal.ManifestRefusal.TheVariants.{NoMemory};

    ghost from_gives = { λ _ e. e ≡ NoMemory };

    fn from(_refused: NoMemory) -> ManifestRefusal {
        ManifestRefusal::NoMemory
    }
}

/// The text of a refusal, for people.
pub fn refusal_text(alloc: Global, refusal: &ManifestRefusal) -> Result<Str, NoMemory>
    ensures { IfOk result (λ t. t ≡ manifest_refusal_text refusal.now) }
{
    match refusal {
        ManifestRefusal::NotToml => Str::of(alloc, "The manifest is no TOML."),
        ManifestRefusal::BadManifest { field } => field_text(alloc, field.as_str()),
        ManifestRefusal::NoMemory => call_text(alloc, CallRefusal::NoMemory),
        ManifestRefusal::TooDeep => call_text(alloc, CallRefusal::BadValue(ValueRefusal::TooDeep)),
        ManifestRefusal::TooLarge => {
            call_text(alloc, CallRefusal::BadEntity(EntityRefusal::TooLarge))
        }
        ManifestRefusal::BadDraft(refusal) => call_text(alloc, CallRefusal::BadEntity(*refusal)),
    }
}

fn field_text(alloc: Global, field: &str) -> Result<Str, NoMemory>
    ensures { IfOk result (λ t. t ≡ codes "The manifest field " ++ field.now ++ codes " is wrong.") }
{
    let text = format!(in alloc; "The manifest field {field} is wrong.")?;
    Str::from_string(text)
}

fn call_text(alloc: Global, refusal: CallRefusal) -> Result<Str, NoMemory>
    ensures { IfOk result (λ t. t ≡ text_of (reasons.Call refusal)) }
{
    reason_text(alloc, &Reason::Call(refusal))
}
