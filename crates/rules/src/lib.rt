// Rule images: what comes of reading one, how many rules it has, and each of them. Reading takes one pass over the blocks,
// one over the records, each of which is decoded once, and one over two columns that are kept of them.
#![tactic(auto)]

mod decode;
mod fields;
mod references;

ghost use Rattle.std.specs.Prelude.{◌≡◌, length, ◌<◌, ◌≤◌};
ghost use Rattle.meaning.specs.Reading.{Accepted};
ghost use Rattle.meaning.specs.Order.{earliest, in_order};
ghost use Rattle.meaning.specs.Block.{rule_form, image_tests};
ghost use Rattle.meaning.specs.Rules.{rule_at, rules_of, read_rule, read_rules};
ghost use Rattle.block.specs.Fair.{Part};
ghost use Rattle.rules.specs.Table.{Table, Row, Kept, referred_or};
ghost use Rattle.rules.specs.Promises.{RulesPromise};

use decode::{decode, rule_in};
use meaning::{Refusal, Rule};
use references::read_references;

// The most rules of a table: ten blocks of ten.
const LIMIT: usize = block::RULES.each * block::RULES.most;

// How many rules an image has whose blocks were read.
fn table_size(image: &[u8]) -> usize
    requires { in_order (image_tests rule_form image.now) ≡ Accepted }
    ensures { Table image.now result }
{
    block::count_records(image, block::RULES)
}

// The 50 bytes of record k.
fn record_in(image: &[u8], k: usize) -> &[u8]
    requires { Row image.now k }
    ensures { Part rule_form image.now k result.now }
{
    block::record_part(image, block::RULES, k)
}

// Record by record 24, 25: the first that does not decode ends the reading. Of each that does, its kind and the number that it
// refers to are kept.
fn read_records(
    image: &[u8],
    n: usize,
    kind: &mut [u8],
    referred: &mut [u16],
) -> Result<(), Refusal>
    requires { Table image.now n × (n ≤ length kind.old) × (n ≤ length referred.old) }
    ensures answer { result ≡ earliest (read_rule image.now (rules_of image.now)) 0 n }
    ensures kept { result ≡ Accepted → Kept (rules_of image.now) n kind.new referred.new }
{
    for k in 0..n {
        let row = match decode(record_in(image, k)) {
            Ok(row) => row,
            Err(number) => return Err(Refusal { number, place: k }),
        };
        kind[k] = row.kind;
        referred[k] = row.referred;
    }
    Ok(())
}

// Rule k of the table.
pub fn rule_at(image: &[u8], k: usize) -> Rule
    requires { Row image.now k }
    ensures { result ≡ rule_at (rules_of image.now) k }
{
    rule_in(record_in(image, k))
}

// What comes of reading a rule image, whatever its bytes: the blocks, then the records, then the references.
pub fn read_rules(image: &[u8]) -> Result<(), Refusal>
    ensures { RulesPromise image.now result }
{
    block::rule_blocks(image)?;
    let n = table_size(image);
    let mut kind = [0u8; LIMIT];
    let mut referred = [0u16; LIMIT];
    read_records(image, n, &mut kind, &mut referred)?;
    read_references(&kind, &referred, n)
}

// How many rules an accepted image has.
pub fn count_rules(image: &[u8]) -> usize
    requires { read_rules image.now ≡ Accepted }
    ensures { Table image.now result }
{
    table_size(image)
}

// The rule to which rule k refers if it is a reference; rule k itself if it is not.
pub fn referred_rule(image: &[u8], k: usize) -> Rule
    requires { (read_rules image.now ≡ Accepted) × (k < length (rules_of image.now)) }
    ensures { result ≡ referred_or (rules_of image.now) k }
{
    let rule = rule_at(image, k);
    if rule.kind != 3 {
        return rule;
    }
    rule_at(image, rule.referred as usize)
}
