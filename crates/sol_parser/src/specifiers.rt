// Specifiers of variables, functions, constructors and modifiers from tokens.

ghost use Rattle.std.specs.Prelude.{◌≡◌};
ghost use Rattle.sol_parse_expr.specs.Reading.{ReadsTree, WithinTree};
ghost use Rattle.sol_parser.specs.Reading.{plain_specifier_at};

use crate::elements::Element;
use crate::parts::{INSIDE, base_at, override_at};
use chc_nums::NoMemory;
use sol_parse_expr::{Furthest, word_at};
use sol_tree::{ConstructorSpecifier, FunSpecifier, ModifierSpecifier, Token, VarSpecifier};

impl Element for VarSpecifier {
    ghost use Rattle.sol_parser.specs.Reading.{var_specifier_at};

    ghost most = { 0 };

    ghost reader = { var_specifier_at };

    #[tactic(auto, unfolding(crate::specs::Reading::var_specifier_at))]
    fn read<'a>(
        furthest: &mut Furthest,
        tokens: &'a [Token],
    ) -> Result<Option<(VarSpecifier, u32, &'a [Token])>, NoMemory> {
        if let Some((at, rest)) = word_at(furthest, b"public", tokens) {
            return Ok(Some((VarSpecifier::Public { at }, 0, rest)));
        }
        if let Some((at, rest)) = word_at(furthest, b"internal", tokens) {
            return Ok(Some((VarSpecifier::Internal { at }, 0, rest)));
        }
        if let Some((at, rest)) = word_at(furthest, b"private", tokens) {
            return Ok(Some((VarSpecifier::Private { at }, 0, rest)));
        }
        if let Some((at, rest)) = word_at(furthest, b"constant", tokens) {
            return Ok(Some((VarSpecifier::Constant { at }, 0, rest)));
        }
        if let Some((at, rest)) = word_at(furthest, b"immutable", tokens) {
            return Ok(Some((VarSpecifier::Immutable { at }, 0, rest)));
        }
        match override_at(furthest, tokens)? {
            None => Ok(None),
            Some((specifier, _, rest)) => Ok(Some((
                VarSpecifier::Override {
                    at: specifier.at,
                    specifier,
                },
                0,
                rest,
            ))),
        }
    }
}

// A specifier of a function that is a word alone.
#[tactic(auto, unfolding(crate::specs::Reading::plain_specifier_at))]
fn plain_specifier_at<'a>(
    furthest: &mut Furthest,
    tokens: &'a [Token],
) -> Option<(FunSpecifier, u32, &'a [Token])>
    ensures read { ReadsTree result (plain_specifier_at tokens.now) }
    ensures within { WithinTree 127 result }
{
    if let Some((at, rest)) = word_at(furthest, b"public", tokens) {
        return Some((FunSpecifier::Public { at }, 0, rest));
    }
    if let Some((at, rest)) = word_at(furthest, b"external", tokens) {
        return Some((FunSpecifier::External { at }, 0, rest));
    }
    if let Some((at, rest)) = word_at(furthest, b"internal", tokens) {
        return Some((FunSpecifier::Internal { at }, 0, rest));
    }
    if let Some((at, rest)) = word_at(furthest, b"private", tokens) {
        return Some((FunSpecifier::Private { at }, 0, rest));
    }
    if let Some((at, rest)) = word_at(furthest, b"view", tokens) {
        return Some((FunSpecifier::View { at }, 0, rest));
    }
    if let Some((at, rest)) = word_at(furthest, b"pure", tokens) {
        return Some((FunSpecifier::Pure { at }, 0, rest));
    }
    let (at, rest) = word_at(furthest, b"virtual", tokens)?;
    Some((FunSpecifier::Virtual { at }, 0, rest))
}

impl Element for FunSpecifier {
    ghost use Rattle.sol_parser.specs.Reading.{fun_specifier_at};

    ghost most = { 127 };

    ghost reader = { fun_specifier_at 127 };

    #[tactic(auto, unfolding(crate::specs::Reading::fun_specifier_at))]
    fn read<'a>(
        furthest: &mut Furthest,
        tokens: &'a [Token],
    ) -> Result<Option<(FunSpecifier, u32, &'a [Token])>, NoMemory> {
        if let Some(found) = plain_specifier_at(furthest, tokens) {
            return Ok(Some(found));
        }
        if let Some((specifier, _, rest)) = override_at(furthest, tokens)? {
            return Ok(Some((
                FunSpecifier::Override {
                    at: specifier.at,
                    specifier,
                },
                0,
                rest,
            )));
        }
        match base_at(furthest, INSIDE, tokens)? {
            None => Ok(None),
            Some((base, height, rest)) => {
                Ok(Some((FunSpecifier::Base { at: base.at, base }, height, rest)))
            }
        }
    }
}

impl Element for ConstructorSpecifier {
    ghost use Rattle.sol_parser.specs.Reading.{constructor_specifier_at};

    ghost most = { 127 };

    ghost reader = { constructor_specifier_at 127 };

    #[tactic(auto, unfolding(crate::specs::Reading::constructor_specifier_at))]
    fn read<'a>(
        furthest: &mut Furthest,
        tokens: &'a [Token],
    ) -> Result<Option<(ConstructorSpecifier, u32, &'a [Token])>, NoMemory> {
        if let Some((at, rest)) = word_at(furthest, b"public", tokens) {
            return Ok(Some((ConstructorSpecifier::Public { at }, 0, rest)));
        }
        if let Some((at, rest)) = word_at(furthest, b"internal", tokens) {
            return Ok(Some((ConstructorSpecifier::Internal { at }, 0, rest)));
        }
        match base_at(furthest, INSIDE, tokens)? {
            None => Ok(None),
            Some((base, height, rest)) => Ok(Some((
                ConstructorSpecifier::Base { at: base.at, base },
                height,
                rest,
            ))),
        }
    }
}

impl Element for ModifierSpecifier {
    ghost use Rattle.sol_parser.specs.Reading.{modifier_specifier_at};

    ghost most = { 0 };

    ghost reader = { modifier_specifier_at };

    #[tactic(auto, unfolding(crate::specs::Reading::modifier_specifier_at))]
    fn read<'a>(
        furthest: &mut Furthest,
        tokens: &'a [Token],
    ) -> Result<Option<(ModifierSpecifier, u32, &'a [Token])>, NoMemory> {
        if let Some((at, rest)) = word_at(furthest, b"virtual", tokens) {
            return Ok(Some((ModifierSpecifier::Virtual { at }, 0, rest)));
        }
        match override_at(furthest, tokens)? {
            None => Ok(None),
            Some((specifier, _, rest)) => {
                Ok(Some((
                    ModifierSpecifier::Override {
                        at: specifier.at,
                        specifier,
                    },
                    0,
                    rest,
                )))
            }
        }
    }
}
