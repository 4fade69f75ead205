//! Types that are read by hand, with a contract: the steps of any format say what was read, and those of JSON which events of the parser
//! that was.

ghost use Rattle.std.specs.Prelude.{◌≤◌, IfOk};
ghost use Rattle.serde.specs.Event.{unsigned};
ghost use Rattle.serde.specs.Steps.{Gives};
ghost use Rattle.facet_json_serde_tests.specs.ByHand.{GivesFigure, GivesPair, PassesFigure, ReadsFigure};

use crate::figures::{Figure, Percent, Range};
use facet_json_serde::{Json, JsonParser, ReadFault};
use serde::{Deserialize, Deserializer, Format, Kind};
use std::alloc::Global;

impl<'de> Deserialize<'de> for Percent {
    fn deserialize<F: Format>(
        alloc: Global,
        from: &mut Deserializer<'de, '_, F>,
    ) -> Result<Percent, F::Error>
        ensures read { IfOk result (λ p. Gives F.gives from.old (unsigned p.0) from.new) }
        ensures most { IfOk result (λ p. p.0 ≤ 100) }
    {
        let part = from.u64()?;
        if part <= 100 {
            Ok(Percent(part))
        } else {
            Err(from.custom("above 100"))
        }
    }
}

impl<'de> Deserialize<'de> for Range {
    fn deserialize<F: Format>(
        alloc: Global,
        from: &mut Deserializer<'de, '_, F>,
    ) -> Result<Range, F::Error>
        ensures read { IfOk result (λ r. GivesPair F.gives F.stays from.old r.low r.high from.new) }
        ensures order { IfOk result (λ r. r.low ≤ r.high) }
    {
        from.begin_seq()?;
        from.expect_item()?;
        let low = from.u64()?;
        from.expect_item()?;
        let high = from.u64()?;
        from.expect_end()?;
        if low <= high {
            Ok(Range { low, high })
        } else {
            Err(from.invalid())
        }
    }
}

impl<'de> Deserialize<'de> for Figure {
    fn deserialize<F: Format>(
        alloc: Global,
        from: &mut Deserializer<'de, '_, F>,
    ) -> Result<Figure, F::Error>
        ensures { IfOk result (λ f. GivesFigure F.gives F.stays from.old f from.new) }
    {
        if let Kind::Seq = from.peek()? {
            Ok(Figure::Range(Range::deserialize(alloc, from)?))
        } else {
            Ok(Figure::Percent(Percent::deserialize(alloc, from)?))
        }
    }
}

/// The parser's next events are that number, or that list.
pub fn read_figure<'de>(
    alloc: Global,
    input: &'de [u8],
    parser: JsonParser<'de>,
) -> Result<Figure, ReadFault>
    ensures { IfOk result (λ f. PassesFigure parser.entry f) }
{
    let mut json = Json::new(alloc, parser);
    read_by(alloc, input, &mut json)
}

/// Reads a figure by any format.
fn read_by<'de, F: Format>(
    alloc: Global,
    input: &'de [u8],
    format: &mut F,
) -> Result<Figure, F::Error>
    ensures { IfOk result (ReadsFigure F.Error F.Mark F.gives F.stays format.old) }
{
    Figure::deserialize(alloc, &mut Deserializer::new(input, format))
}
