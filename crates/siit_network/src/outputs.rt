//! The files that a run writes, made anew.
ghost use Rattle.std.specs.Prelude.{◌≡◌, [], OnErr, OnOk};
ghost use Rattle.siit_chain.specs.Outputs.{AreApart, name_in, names_in, WriteFailedIn};
ghost use Rattle.siit_network.specs.Holding.{HoldParts, HoldTexts, IsMade, IsNotMade};
ghost use Rattle.std.specs.Option.{option_copied};
ghost use Rattle.siit_word.specs.Files.{Touches};

use siit_chain::Outs;
use siit_word::{Failed, Files};

/// Makes each named file hold no bytes, or makes it where it is missing: that of the left, of the right, and that of
/// the report, in this order. Where one fails, each file is as before or holds no bytes.
pub fn create_outputs<F: Files>(files: &mut F, outs: Outs<'_>) -> Result<(), Failed>
    requires apart { AreApart (name_in outs) }
    ensures ok { OnOk result (HoldTexts (name_in outs.entry) (F.meaning files.new) (λ o. [])) }
    ensures err { OnErr result (HoldParts (name_in outs.entry) (F.meaning files.old) (F.meaning files.new) (λ o. [])) }
    ensures cause { OnErr result (WriteFailedIn (name_in outs.entry) (F.meaning files.old) (F.meaning files.new)) }
    ensures only { Touches (F.meaning files.old) (F.meaning files.new) [] (names_in outs.entry) }
{
    create_named(files, outs.left)?;
    create_named(files, outs.right)?;
    create_named(files, outs.report)?;
    Ok(())
}

/// Makes a file hold no bytes, where it is named.
fn create_named<F: Files>(files: &mut F, name: Option<&str>) -> Result<(), Failed>
    ensures ok { OnOk result (IsMade (F.meaning files.old) (F.meaning files.new) (option_copied name.entry)) }
    ensures err { OnErr result (IsNotMade (F.meaning files.old) (F.meaning files.new) (option_copied name.entry)) }
{
    match name {
        Some(name) => files.create(name),
        None => Ok(()),
    }
}
