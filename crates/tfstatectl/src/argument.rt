//! An argument of a command, and its conversion for the command line parser.

use clap::builder::ValueParser;
use clap::{Arg, ArgAction};
use std::alloc::{AllocError, Global};

/// An argument of a command: its name, its values, and its help text.
#[derive(Clone, Copy)]
pub(crate) struct Argument {
    pub(crate) name: &'static str,
    pub(crate) takes: Takes,
    pub(crate) help: &'static str,
}

/// The values of an argument.
#[derive(Clone, Copy)]
pub(crate) enum Takes {
    /// One word, by its position.
    Word,
    /// One word, by its position, or instead of it this flag or option.
    WordUnless(&'static str),
    /// One of these words, by its position, or instead of it one of these flags or options.
    OneOfUnless(&'static [&'static str], &'static [&'static str]),
    /// One or more words, by their position, or instead of them one of these flags or options.
    WordsUnless(&'static [&'static str]),
    /// One word, by its position, with this name in the help.
    Called(&'static str),
    /// None: the argument is a flag.
    Nothing,
    /// None: the argument is a flag that excludes these other arguments.
    NothingUnless(&'static [&'static str]),
    /// The value of an option, with this name in the help.
    Value(&'static str, Value),
}

/// Whether the value of an option must be given.
#[derive(Clone, Copy)]
pub(crate) enum Value {
    /// An optional value.
    Optional(ValueParser<'static>),
    /// A required value.
    Required(ValueParser<'static>),
    /// An optional value with a default.
    Default(ValueParser<'static>, &'static str),
    /// An optional value that is one of these words.
    Among(&'static [&'static str]),
    /// An option whose value may be omitted after its name.
    Perhaps,
    /// An optional value that excludes this other option.
    Unless(&'static str),
    /// Optional values, separated by commas, that exclude these other arguments.
    ListUnless(&'static [&'static str]),
    /// Two optional values, with these names in the help, that exclude these other arguments.
    PairUnless(&'static [&'static str], &'static [&'static str]),
    /// An optional value that excludes these other options.
    UnlessAny(ValueParser<'static>, &'static [&'static str]),
}

impl Argument {
    /// Returns the argument for the parser.
    pub(crate) fn to_arg<'a>(&self, alloc: Global) -> Result<Arg<'a>, AllocError> {
        let arg = Arg::new(alloc, self.name).help(self.help);
        match self.takes {
            Takes::Word => Ok(arg.required(true)),
            Takes::WordUnless(flag) => { arg.required_unless_present(flag)?.conflicts_with(flag) }
            Takes::OneOfUnless(words, others) => {
                let arg = arg.required_unless_present_any(others)?;
                arg.value_parser(words).conflicts_with_all(others)
            }
            Takes::WordsUnless(others) => {
                let arg = arg.required_unless_present_any(others)?;
                arg.num_args(1..).conflicts_with_all(others)
            }
            Takes::Called(called) => Ok(arg.required(true).value_name(called)),
            Takes::Nothing => Ok(arg.long(self.name).action(ArgAction::SetTrue)),
            Takes::NothingUnless(others) => {
                let arg = arg.long(self.name).action(ArgAction::SetTrue);
                arg.conflicts_with_all(others)
            }
            Takes::Value(called, value) => value.with_value(arg.long(self.name).value_name(called)),
        }
    }
}

impl Value {
    /// Returns the option with this value.
    fn with_value<'a>(self, option: Arg<'a>) -> Result<Arg<'a>, AllocError> {
        match self {
            Value::Optional(parser) => Ok(option.value_parser(parser)),
            Value::Required(parser) => Ok(option.value_parser(parser).required(true)),
            Value::Default(parser, value) => Ok(option.value_parser(parser).default_value(value)),
            Value::Among(words) => Ok(option.value_parser(words)),
            Value::Perhaps => Ok(option.num_args(0..=1).default_missing_value("")),
            Value::Unless(other) => option.conflicts_with(other),
            Value::ListUnless(others) => option.value_delimiter(',').conflicts_with_all(others),
            Value::PairUnless(names, others) => {
                option
                    .num_args(2)
                    .value_names(names)
                    .conflicts_with_all(others)
            }
            Value::UnlessAny(parser, others) => {
                option.value_parser(parser).conflicts_with_all(others)
            }
        }
    }
}
