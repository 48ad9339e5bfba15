// The text that tells how the program is called.
ghost use Rattle.std.specs.Prelude.{◌≡◌};
ghost use Rattle.smv_texts.specs.Texts.{usage_text};

/// The text that tells how the program is called.
pub fn usage_text() -> &'static [u8]
    ensures { result.now ≡ usage_text }
{
    b"usage: smv_run check MODEL [--nodes N] [--proof FILE]\n       smv_run recheck MODEL PROOF [--nodes N]\n       smv_run gen N [--check]\n       smv_run delay MODEL FROM TO [--nodes N]\n       smv_run replay MODEL TRACE [--nodes N]\n       smv_run strong MODEL [PAIR]... [--nodes N]\n"
}
