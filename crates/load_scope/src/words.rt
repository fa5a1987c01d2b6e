// Words, and predeclared names.

ghost use Rattle.std.specs.Prelude.{◌≡◌};
ghost use Rattle.il_syntax.specs.declared.tree.Config.{Config as Configuration};
ghost use Rattle.il_statics.specs.Names.{is_predeclared};
ghost use Rattle.load_scope.specs.Words.{is_name};

use crate::blocks::standard_block;
use crate::functions::standard_function;
use crate::image::image_name;
use il_syntax::tree::Config;

/// Whether no text may declare a name again: an image name's, a standard function's or a standard block's (own rule).
pub fn is_predeclared(config: &Config, name: &str) -> bool
    ensures { result ≡ is_predeclared config.now name.now }
{
    image_name(config, name).is_some()
        || standard_function(name).is_some()
        || standard_block(name).is_some()
}

/// Whether a name is this word: a function of its own, so that no caller's proof sees the bytes. Most words differ in length.
#[tactic(auto, unfolding(crate::specs::Words::is_name))]
pub fn is_name(name: &str, word: &str) -> bool
    ensures { result ≡ is_name word.now name.now }
{
    name.len() == word.len() && name == word
}
