ghost use Rattle.std.specs.Prelude.{◌≡◌, ◌≢◌, ◌<◌, List, [], ◌∷◌, ◌++◌, length, map, None, OnOk, Some, Err};
ghost use Rattle.json.specs.Json.{value, items, members};
ghost use Rattle.serde_json.specs.Data.{Data, Members, array, object, no_members};
ghost use Rattle.serde_json.specs.Read.{of_json, of_items, of_members, converted};
ghost use Rattle.serde_json.specs.View.{items_of};
ghost use Rattle.json_data.specs.Growth.{GrowsByValue};
ghost use Rattle.json_data.specs.Nodes.{entry};

use crate::fault::DataFault;
use crate::node::Node;
use crate::number::number_of;
use json::{Reader, Token};

/// Appends the nodes of the reader's next value, in which arrays and objects may nest `depth` deep.
#[cycle(read)]
#[inline(always)]
pub(crate) fn read<'a>(
    reader: &mut Reader<'a>,
    depth: usize,
    nodes: &mut Vec<Node<'a>>,
) -> Result<(), DataFault>
    ensures ok { OnOk result ((d : Data)
        × GrowsByValue d (map entry nodes.old.items) (map entry nodes.new.items)
        × (converted of_json (value depth reader.old) ≡ Some (d, reader.new))) }
    ensures shorter { OnOk result (length reader.new < length reader.old) }
    ensures err { result ≡ Err DataFault.NotJson
        → converted of_json (value depth reader.old) ≡ None }
{
    let token = reader.next().ok_or(DataFault::NotJson)?;
    match token {
        Token::String(text) => push(nodes, Node::Text(text)),
        Token::Number(text) => match number_of(text) {
            Some(number) => push(nodes, Node::Number(number)),
            None => Err(DataFault::NotJson),
        },
        Token::Bool(b) => push(nodes, Node::Bool(b)),
        Token::Null => push(nodes, Node::Null),
        Token::EndObject | Token::EndArray | Token::Key(_) | Token::Bad => {
            Err(DataFault::NotJson)
        }
        Token::BeginArray => {
            if depth == 0 {
                return Err(DataFault::NotJson);
            }
            read_items(reader, depth - 1, nodes)
        }
        Token::BeginObject => {
            if depth == 0 {
                return Err(DataFault::NotJson);
            }
            read_members(reader, depth - 1, nodes)
        }
    }
}

#[inline(always)]
fn push<'a>(nodes: &mut Vec<Node<'a>>, node: Node<'a>) -> Result<(), DataFault>
    ensures ok { OnOk result (nodes.new.items ≡ nodes.old.items ++ node.entry ∷ []) }
    ensures err { result ≢ Err DataFault.NotJson }
{
    nodes.push(node)?;
    Ok(())
}

#[cycle(read)]
#[inline(never)]
fn read_items<'a>(
    reader: &mut Reader<'a>,
    depth: usize,
    nodes: &mut Vec<Node<'a>>,
) -> Result<(), DataFault>
    ensures ok { OnOk result ((ds : List Data)
        × GrowsByValue (array (items_of ds)) (map entry nodes.old.items) (map entry nodes.new.items)
        × (converted of_items (items (value depth) (length reader.old) reader.old)
        ≡ Some (items_of ds, reader.new))) }
    ensures shorter { OnOk result (length reader.new < length reader.old) }
    ensures err { result ≡ Err DataFault.NotJson
        → converted of_items (items (value depth) (length reader.old) reader.old) ≡ None }
{
    let first = nodes.len();
    push(nodes, Node::Null)?;
    let mut count = 0;
    'items: while !reader.take_end_array() {
        read(reader, depth, nodes)?;
        count += 1;
    }
    nodes[first] = Node::Array(nodes.len() - first - 1, count);
    Ok(())
}

#[cycle(read)]
#[inline(never)]
fn read_members<'a>(
    reader: &mut Reader<'a>,
    depth: usize,
    nodes: &mut Vec<Node<'a>>,
) -> Result<(), DataFault>
    ensures ok { OnOk result ((found : Members)
        × GrowsByValue (object found) (map entry nodes.old.items) (map entry nodes.new.items)
        × (converted (λ ms. of_members ms no_members)
        (members (value depth) (length reader.old) reader.old) ≡ Some (found, reader.new))) }
    ensures shorter { OnOk result (length reader.new < length reader.old) }
    ensures err { result ≡ Err DataFault.NotJson
        → converted (λ ms. of_members ms no_members)
        (members (value depth) (length reader.old) reader.old) ≡ None }
{
    let first = nodes.len();
    push(nodes, Node::Null)?;
    let mut count = 0;
    'members: while let Some(name) = reader.next_key()? {
        push(nodes, Node::Text(name))?;
        read(reader, depth, nodes)?;
        count += 1;
    }
    nodes[first] = Node::Object(nodes.len() - first - 1, count);
    Ok(())
}
