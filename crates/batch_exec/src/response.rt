//! The response to a request, as JSON.
ghost use Rattle.std.specs.Prelude.{◌≡◌, [], IfOk, map};
ghost use Rattle.spec_batch.specs.Batch.{id_member, response_data, response_with_ids};
ghost use Rattle.spec_json.specs.Edit.{put_all};
ghost use Rattle.spec_json.specs.TreeData.{data_of};
ghost use Rattle.spec_json.specs.declared.tree.Tree.TheVariants.{Object};

use spec_batch::method_response::MethodResponse;
use spec_json::text::Text;
use spec_json::tree::{Tree, TreeList, TreeObject};
use std::alloc::{AllocError, Global};

/// One response: a name, arguments and the call's id (RFC 8620 section 3.4).
fn item(alloc: Global, response: MethodResponse) -> Result<Tree, AllocError>
    ensures { IfOk result (λ t. data_of t ≡ response_data response) }
{
    let name = Tree::Text(response.name);
    let call_id = Tree::Text(response.call_id);
    let items = vec![in alloc; name, response.arguments, call_id]?;
    Ok(Tree::List(TreeList::new(items)))
}

fn items(alloc: Global, responses: Vec<MethodResponse>) -> Result<Vec<Tree>, AllocError>
    ensures { IfOk result (λ v. map data_of v.items ≡ map response_data responses.items) }
{
    let mut items = Vec::with_capacity(alloc, responses.len())?;
    for response in responses {
        items.push(item(alloc, response)?)?;
    }
    Ok(items)
}

/// The created ids that calls added, as an object, the later ones in place of earlier ones of the same key.
fn added_object(alloc: Global, added: Vec<(Text, Text)>) -> Result<TreeObject, AllocError>
    ensures { IfOk result (λ o. o ≡ put_all (map id_member added.items) []) }
{
    let mut object = TreeObject::new(Vec::new(alloc));
    for (key, id) in added {
        object.put(key, Tree::Text(id))?;
    }
    Ok(object)
}

/// The response to a request that gives these created ids, where its calls added those (RFC 8620 section 3.4).
///
/// The responses are moved into it.
pub(crate) fn response_tree(
    alloc: Global,
    given: Option<TreeObject>,
    added: Vec<(Text, Text)>,
    responses: Vec<MethodResponse>,
) -> Result<Tree, AllocError>
    ensures { IfOk result (λ t. data_of t ≡ response_with_ids given added.items responses.items) }
{
    let responses = Tree::List(TreeList::new(items(alloc, responses)?));
    let state = Tree::Text(Text::from_str(alloc, "1")?);
    match given {
        None => Tree::object(
            alloc,
            vec![in alloc; ("methodResponses", responses), ("sessionState", state)]?,
        ),
        Some(given) => {
            let created = Tree::Object(given.with_all(alloc, added_object(alloc, added)?)?);
            Tree::object(
                alloc,
                vec![in alloc;
                    ("createdIds", created),
                    ("methodResponses", responses),
                    ("sessionState", state),
                ]?,
            )
        }
    }
}
