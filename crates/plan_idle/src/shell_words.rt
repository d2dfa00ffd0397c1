//! The reserved words and the builtins of shells.

ghost use Rattle.std.specs.Prelude.{◌≡◌, IfOk, map};
ghost use Rattle.std.specs.List.{list_any};
ghost use Rattle.std.specs.Str.{bytes_eq};
ghost use Rattle.plan_idle.specs.Answers.{is_among, word_answer};

use crate::answer::Answer;
use crate::tree_looks::dirs_of;
use std::alloc::{AllocError, Global};

// The words that both dash and bash have (dash(1), bash(1)).
const SHARED_WORDS: &str =
    ".:alias:bg:break:case:cd:command:continue:do:done:echo:elif:else:esac:eval:exec:exit:export:false:fg:fi:for:getopts:hash:if:in:jobs:kill:local:printf:pwd:read:readonly:return:set:shift:test:then:times:trap:true:type:ulimit:umask:unalias:unset:until:wait:while";

// The words of bash alone. dash(1) speaks of fc, but Debian's dash doesn't have it.
const BASH_WORDS: &str =
    "bind:builtin:caller:compgen:complete:compopt:coproc:declare:dirs:disown:enable:fc:function:help:history:let:logout:mapfile:popd:pushd:readarray:select:shopt:source:suspend:time:typeset";

// The words of dash alone.
const DASH_WORDS: &str = "chdir";

/// Returns whether a shell, which is bash or else dash or bash, has a command of this name itself.
///
/// # Errors
///
/// `AllocError` if an allocation fails.
pub(crate) fn word_answer(alloc: Global, is_bash: bool, name: &str) -> Result<Answer, AllocError>
    ensures { IfOk result (λ answer. answer ≡ word_answer is_bash name.now) }
{
    if is_among(alloc, SHARED_WORDS, name)? {
        return Ok(Answer::Yes);
    }
    if is_among(alloc, BASH_WORDS, name)? {
        return Ok(if is_bash {
            Answer::Yes
        } else {
            Answer::Unknown
        });
    }
    if is_among(alloc, DASH_WORDS, name)? && !is_bash {
        return Ok(Answer::Unknown);
    }
    Ok(Answer::No)
}

// Returns whether a word is among the words of a text, with a colon between them.
#[tactic(auto, unfolding(crate::specs::Answers::is_among))]
fn is_among(alloc: Global, words: &str, name: &str) -> Result<bool, AllocError>
    ensures { IfOk result (λ is. is ≡ is_among words.now name.now) }
{
    let words = dirs_of(alloc, words)?;
    Ok(has_word(words.as_slice(), name))
}

// Returns whether a word is one of some words.
fn has_word(words: &[&str], name: &str) -> bool
    ensures { result ≡ list_any (bytes_eq name.now) (map (λ word. word.now) words.now) }
{
    for word in words {
        if name == *word {
            return true;
        }
    }
    false
}
