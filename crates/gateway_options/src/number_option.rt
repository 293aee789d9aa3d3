ghost use Rattle.std.specs.Prelude.{◌≡◌, ◌≤◌, ℕ, IfNone, IfSome, false};
ghost use Rattle.clap.specs.Words.{found_of, rows_of, rule_of};
ghost use Rattle.gateway_options.specs.CommandLine.{IsNumber, number_rule};
ghost use Rattle.gateway_options.specs.inner.NumberOption.{described};

use clap::{Arg, ArgMatches, value_parser};
use decimals::number_up_to;
use std::alloc::Global;

/// An option whose value is a number, written as digits: `--name N`.
#[derive(Clone, Copy)]
pub struct NumberOption<'a> {
    /// The name, without the dashes.
    pub name: &'a str,
    /// The help text, with unit and range.
    pub help: &'a str,
    /// The value if the option is left out. Without a default the option must be given.
    pub default: Option<&'a str>,
    /// The least value.
    pub least: u32,
    /// The greatest value.
    pub most: u32,
}

impl<'a> NumberOption<'a> {
    /// The option as an argument of `clap`.
    pub fn argument(&self, alloc: Global) -> Arg<'a>
        ensures rule { rule_of result ≡ number_rule (described self.now) }
        ensures local { result.global ≡ false }
    {
        let range = i64::from(self.least)..=i64::from(self.most);
        let argument = Arg::new(alloc, self.name)
            .help(self.help)
            .value_name("N")
            .long(self.name)
            .value_parser(value_parser!(u32).range(range));
        match self.default {
            Some(text) => argument.default_value(text),
            None => argument.required(true),
        }
    }

    /// The number that the option's digits write, if it is in the option's range.
    pub fn read(&self, matches: &ArgMatches<'_>) -> Option<u64>
        ensures number { IfSome result (λ n. (n ≤ self.now.most)
            × IsNumber (described self.now) (rows_of (found_of matches.now)) n) }
        ensures none { IfNone result ((n : ℕ) →
            ¬ (IsNumber (described self.now) (rows_of (found_of matches.now)) n)) }
    {
        let number = number_up_to(matches.get_str(self.name)?.as_bytes(), u64::from(self.most))?;
        if number < u64::from(self.least) {
            return None;
        }
        Some(number)
    }
}
