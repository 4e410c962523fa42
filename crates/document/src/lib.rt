// The tests 4 to 10 of document 01 on the columns of a document, a slice for each field of the records.
#![tactic(auto)]

ghost use Rattle.std.specs.Prelude.{◌≡◌};
ghost use Rattle.meaning.specs.Nodes.{accept};
ghost use Rattle.document.specs.Columns.{EvenBy, doc_in};

use columns::Records;
use meaning::Refusal;

pub mod records; // records.rt: 4, 5, 6, 8, record by record
pub mod placing; // placing.rt: 7, version by version
pub mod clash; // clash.rt: 9, an item that clashes with a lower one
pub mod root; // root.rt: 10, the versions of the root
pub mod front; // front.rt: records in the first entries of longer columns

// Everything that is asked of a document, in its order: 4, 5, 6, 8 record by record, then 7, then 9, then 10.
// Cost: two passes over the records, the pairs of items that share a key, and one more pass.
pub fn accept_columns(records: Records<'_>, spare: &[u16]) -> Result<(), Refusal>
    requires { EvenBy records spare.now }
    ensures { result ≡ accept (doc_in records.entry spare.now) }
{
    records::read_records(records, spare)?;
    let misplaced = placing::first_misplaced(records);
    if let Some(v) = misplaced {
        return Err(Refusal {
            number: 7,
            place: v,
        });
    }
    let clash = clash::first_clash(records);
    if let Some(i) = clash {
        return Err(Refusal {
            number: 9,
            place: i,
        });
    }
    if root::is_whole(records) {
        return Ok(());
    }
    Err(Refusal {
        number: 10,
        place: 0,
    })
}
