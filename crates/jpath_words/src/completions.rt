//! Completions of the command line for bash, zsh and fish, made of the options that help shows.

use std::alloc::{AllocError, Global};

// An option as completions have it.
#[derive(Clone, Copy, Drop)]
pub(crate) struct Described {
    pub letter: Option<char>,
    pub name: &'static str,
    // The values behind it, by the names that help has for them.
    pub values: &'static [&'static str],
    // What its one value may be, if it is one of a few.
    pub choices: &'static [&'static str],
    pub help: &'static str,
}

// The completions for a shell: `bash`, `zsh`, or else fish.
pub(crate) fn completions(
    alloc: Global,
    options: &[Described],
    shell: &str,
) -> Result<String, AllocError> {
    let mut text = String::new(alloc);
    match shell {
        "bash" => add_bash(options, &mut text)?,
        "zsh" => add_zsh(options, &mut text)?,
        _ => add_fish(options, &mut text)?,
    }
    Ok(text)
}

// A function that answers bash with the options that begin as the word does, or with what may be behind one.
fn add_bash(options: &[Described], out: &mut String) -> Result<(), AllocError> {
    out.push_str("_jpath() {\n    COMPREPLY=()\n    case $3 in\n")?;
    for option in options {
        if !option.choices.is_empty() {
            add_bash_choices(option, out)?;
        }
    }
    out.push_str("        *) [[ $2 != -* ]] || COMPREPLY=($(compgen -W '")?;
    for option in options {
        add_letter(option, "-", " ", out)?;
        add_three("--", option.name, " ", out)?;
    }
    out.push_str("' -- \"$2\")) ;;\n    esac\n}\ncomplete -o default -F _jpath jpath\n")
}

// The case for an option whose value is one of a few.
fn add_bash_choices(option: &Described, out: &mut String) -> Result<(), AllocError> {
    out.push_str("        ")?;
    add_letter(option, "-", " | ", out)?;
    add_three("--", option.name, ") COMPREPLY=($(compgen -W '", out)?;
    add_words(option.choices, out)?;
    out.push_str("' -- \"$2\")) ;;\n")
}

// The options for zsh's `_arguments`, each with its help and what is behind it.
fn add_zsh(options: &[Described], out: &mut String) -> Result<(), AllocError> {
    out.push_str("#compdef jpath\n_arguments -s -S")?;
    for option in options {
        out.push_str(" \\\n    '*'")?;
        add_letter(option, "{-", ",", out)?;
        let end = if option.letter.is_some() { "}'[" } else { "'[" };
        add_three("--", option.name, end, out)?;
        add_zsh_text(option.help, out)?;
        add_zsh_values(option, out)?;
    }
    out.push_str(" \\\n    '*:FILE:_files'\n")
}

// The end of an option for zsh: what is behind it.
fn add_zsh_values(option: &Described, out: &mut String) -> Result<(), AllocError> {
    out.push(']')?;
    for value in option.values {
        add_three(":", *value, ":", out)?;
        if option.choices.is_empty() {
            out.push(' ')?;
        } else {
            out.push('(')?;
            add_words(option.choices, out)?;
            out.push(')')?;
        }
    }
    out.push('\'')
}

// A line for each option, as fish has it.
fn add_fish(options: &[Described], out: &mut String) -> Result<(), AllocError> {
    for option in options {
        out.push_str("complete -c jpath")?;
        add_letter(option, " -s ", "", out)?;
        add_three(" -l ", option.name, " -d '", out)?;
        add_fish_text(option.help, out)?;
        add_fish_values(option, out)?;
    }
    Ok(())
}

// The end of an option's line for fish: whether it takes a value, and what this may be.
fn add_fish_values(option: &Described, out: &mut String) -> Result<(), AllocError> {
    out.push_str(if option.values.is_empty() {
        "'"
    } else {
        "' -x"
    })?;
    if !option.choices.is_empty() {
        out.push_str(" -a '")?;
        add_words(option.choices, out)?;
        out.push('\'')?;
    }
    out.push('\n')
}

// Adds an option's letter, if it has one, between these texts.
fn add_letter(
    option: &Described,
    front: &str,
    back: &str,
    out: &mut String,
) -> Result<(), AllocError> {
    if let Some(letter) = option.letter {
        out.push_str(front)?;
        out.push(letter)?;
        out.push_str(back)?;
    }
    Ok(())
}

// Adds these three texts, one behind the other.
fn add_three(front: &str, text: &str, back: &str, out: &mut String) -> Result<(), AllocError> {
    out.push_str(front)?;
    out.push_str(text)?;
    out.push_str(back)
}

// Adds these words with blanks between them.
fn add_words(words: &[&str], out: &mut String) -> Result<(), AllocError> {
    let mut before = "";
    for word in words {
        out.push_str(before)?;
        out.push_str(*word)?;
        before = " ";
    }
    Ok(())
}

// Adds a text that is between brackets and single quotes in zsh.
fn add_zsh_text(text: &str, out: &mut String) -> Result<(), AllocError> {
    for c in text.chars() {
        match c {
            '\'' => out.push_str("'\\''")?,
            '[' | ']' | '\\' => {
                out.push('\\')?;
                out.push(c)?;
            }
            _ => out.push(c)?,
        }
    }
    Ok(())
}

// Adds a text that is between single quotes in fish.
fn add_fish_text(text: &str, out: &mut String) -> Result<(), AllocError> {
    for c in text.chars() {
        if c == '\'' || c == '\\' {
            out.push('\\')?;
        }
        out.push(c)?;
    }
    Ok(())
}
