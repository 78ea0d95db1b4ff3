// The commands and their names.
ghost use Rattle.lines.specs.Names.{command_name};
ghost use Rattle.lines.specs.declared.names.Command.TheVariants as commands;
ghost use Rattle.std.proofs.Common.{rules};

use crate::values::FromField;

/// A command: which call a line says. Its name is the line's first field, and the values of the call follow.
#[derive(Clone, Copy)]
pub enum Command {
    /// The day record and the ticks of the ladders.
    Day,
    /// The terms of a series.
    List,
    /// The bell that begins or ends trading.
    Bell,
    /// An entry: a trade.
    Trade,
    /// An entry: an auction.
    Auction,
    /// An entry: a leg.
    Leg,
    /// An entry: a spread.
    Spread,
    /// An entry: a quote.
    Quote,
    /// The theory value of a series.
    Theory,
    /// The ruling on a series.
    Ruling,
    /// The question for a price.
    Settle,
}

impl FromField for Command {
    ghost spelt = { command_name };

    ghost lawful = { λ _. Unit {0} };

    ghost sample = { commands.Day };

    ghost sampled = { Prim.search rules };

    fn from_field(field: &[u8]) -> Option<Command> {
        match field {
            b"day" => Some(Command::Day),
            b"list" => Some(Command::List),
            b"bell" => Some(Command::Bell),
            b"trade" => Some(Command::Trade),
            b"auction" => Some(Command::Auction),
            b"leg" => Some(Command::Leg),
            b"spread" => Some(Command::Spread),
            b"quote" => Some(Command::Quote),
            b"theory" => Some(Command::Theory),
            b"ruling" => Some(Command::Ruling),
            b"settle" => Some(Command::Settle),
            _ => None,
        }
    }
}
