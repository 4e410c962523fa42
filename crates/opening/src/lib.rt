// Images opened, once for any number of questions: the columns of a node image, and beside them whether a rule table is accepted too.
// Every call on images, of either engine, begins here.
#![tactic(auto)]

ghost use Rattle.meaning.specs.Rules.{read_rules};
ghost use Rattle.nodes.specs.Unpacking.{Unpacks, together};
ghost use Rattle.std.specs.Prelude.{◌≡◌};
ghost use Rattle.opening.specs.Opening.{Opens, after_rules};

use columns::Columns;
use meaning::Refusal;

// A node image by itself.
pub fn open_nodes(nodes: &[u8]) -> Columns
    ensures { Unpacks nodes.now result }
{
    nodes::read_columns(nodes)
}

// What came of both images: the node image's refusal, then the table's, else how many records there are.
pub fn after_rules(loaded: Result<usize, Refusal>, rules: &[u8]) -> Result<usize, Refusal>
    ensures { result ≡ after_rules loaded (read_rules rules.now) }
{
    let n = loaded?;
    nodes::told(rules::read_rules(rules), n)
}

// The same columns, and what came of both images beside them.
fn beside(columns: Columns, loaded: Result<usize, Refusal>) -> Columns
    ensures { result ≡ together loaded columns.kind columns.vkind columns.name columns.parent columns.begin columns.end columns.value columns.item }
{
    let kind = columns.kind;
    let vkind = columns.vkind;
    let name = columns.name;
    let parent = columns.parent;
    let begin = columns.begin;
    let end = columns.end;
    let value = columns.value;
    let item = columns.item;
    Columns {
        loaded,
        kind,
        vkind,
        name,
        parent,
        begin,
        end,
        value,
        item,
    }
}

// A node image and a rule table: how many records there are where both are accepted, else the first refusal. Cost: reading both.
pub fn open(nodes: &[u8], rules: &[u8]) -> Columns
    ensures { Opens nodes.now rules.now result }
{
    let columns = open_nodes(nodes);
    let loaded = columns.loaded;
    beside(columns, after_rules(loaded, rules))
}
