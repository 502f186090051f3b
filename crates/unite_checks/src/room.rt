// Room: of one normal form, and of all together.
ghost use Rattle.std.specs.Prelude.{◌≡◌};
ghost use Rattle.meaning.specs.Numbers.{parameter_room, item_room, equation_room, item_total, equation_total, node_total};
ghost use Rattle.unite_checks.specs.Consistent.{within};

use form::{Culprit, Refusal};
use meaning::numbers;

// Has a normal form no more than fits?
pub fn room(parameters: u32, items: u32, equations: u32) -> Result<(), Refusal>
    ensures { result ≡ within parameters parameter_room items item_room equations equation_room }
{
    if numbers::PARAMETER_ROOM < parameters {
        return Err(Refusal {
            number: numbers::NO_ROOM,
            culprit: Culprit { name: 0, actual: 0 },
        });
    }
    if numbers::ITEM_ROOM < items {
        return Err(Refusal {
            number: numbers::NO_ROOM,
            culprit: Culprit { name: 0, actual: 0 },
        });
    }
    if numbers::EQUATION_ROOM < equations {
        return Err(Refusal {
            number: numbers::NO_ROOM,
            culprit: Culprit { name: 0, actual: 0 },
        });
    }
    Ok(())
}

// Have all normal forms together no more than fits?
pub fn total_room(items: u32, equations: u32, nodes: u32) -> Result<(), Refusal>
    ensures { result ≡ within items item_total equations equation_total nodes node_total }
{
    if numbers::ITEM_TOTAL < items {
        return Err(Refusal {
            number: numbers::NO_ROOM,
            culprit: Culprit { name: 0, actual: 0 },
        });
    }
    if numbers::EQUATION_TOTAL < equations {
        return Err(Refusal {
            number: numbers::NO_ROOM,
            culprit: Culprit { name: 0, actual: 0 },
        });
    }
    if numbers::NODE_TOTAL < nodes {
        return Err(Refusal {
            number: numbers::NO_ROOM,
            culprit: Culprit { name: 0, actual: 0 },
        });
    }
    Ok(())
}
