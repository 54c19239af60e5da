//! Names are texts: a `str` holds UTF-8. Nothing of this runs; it tells the proofs above what the type keeps.
ghost use Rattle.std.specs.Option.{option_copied};
ghost use Rattle.std.specs.Prelude.{◌≡◌, ℕ, List, Some};
ghost use Rattle.std.specs.Str.{IsUtf8};
ghost use Rattle.siit_chain.specs.Outputs.{name_in};
ghost use Rattle.siit_making.specs.Crossings.{AreTexts};

use siit_chain::Outs;

/// The names of the outputs are texts.
pub(crate) fn are_texts(outs: Outs<'_>)
    ensures { AreTexts (name_in outs.entry) }
{
    is_text_if_given(outs.left);
    is_text_if_given(outs.right);
    is_text_if_given(outs.report);
}

/// A name that is given is a text.
fn is_text_if_given(name: Option<&str>)
    ensures { (q : List ℕ) → option_copied name.entry ≡ Some q → IsUtf8 q }
{
    if let Some(name) = name {
        is_text(name);
    }
}

/// A name is a text.
fn is_text(name: &str)
    ensures { IsUtf8 name.now }
{
    let _ = name;
}
