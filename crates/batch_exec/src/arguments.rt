//! The arguments that calls give to methods.
ghost use Rattle.std.specs.Prelude.{◌≡◌, is_some, map};
ghost use Rattle.spec_calls.specs.Arguments.{argument_of, has_shape, is_well_given};
ghost use Rattle.spec_calls.specs.Methods.{are_well_given};
ghost use Rattle.spec_json.specs.Data.{lookup};
ghost use Rattle.spec_json.specs.Parts.{all_some, as_object, as_text};
ghost use Rattle.spec_json.specs.TreeData.{data_of};

use spec_calls::method::{Argument, Method, Shape};
use spec_json::tree::{Tree, TreeObject};

/// Whether each argument that calls of a method have to give is there, and each that is there has its shape
/// (RFC 8620 section 3.6.2).
///
/// A null argument counts as absent, and arguments that the method doesn't have may be anything. Takes no memory.
pub fn are_well_given(method: Method, arguments: &TreeObject) -> bool
    ensures { result ≡ are_well_given method arguments.now }
{
    for argument in method.arguments() {
        if !is_well_given(argument, arguments) {
            return false;
        }
    }
    true
}

fn is_well_given(argument: &Argument, arguments: &TreeObject) -> bool
    ensures { result ≡ is_well_given (argument_of argument.now) (lookup (argument_of argument.now).name arguments.now) }
{
    match *argument {
        Argument::Needs(name) => match arguments.get(name) {
            None => false,
            Some(value) => has_shape(Shape::Text, value),
        },
        Argument::Takes(name, shape) => match arguments.get(name) {
            None | Some(Tree::Null) => true,
            Some(value) => has_shape(shape, value),
        },
    }
}

#[tactic(auto, using(spec_json::specs::Data::items_back))]
fn has_shape(shape: Shape, value: &Tree) -> bool
    ensures { result ≡ has_shape shape (data_of value.now) }
{
    match (shape, value) {
        (Shape::Text, Tree::Text(_)) => true,
        (Shape::Number, Tree::Whole(_)) => true,
        (Shape::Truth, Tree::Truth(_)) => true,
        (Shape::Texts, Tree::List(list)) => are_texts(list.items()),
        (Shape::Objects, Tree::List(list)) => are_objects(list.items()),
        (Shape::Object, Tree::Object(_)) => true,
        _ => false,
    }
}

fn are_texts(items: &[Tree]) -> bool
    ensures { result ≡ is_some (all_some as_text (map data_of items.now)) }
{
    for item in items {
        if !matches!(item, Tree::Text(_)) {
            return false;
        }
    }
    true
}

fn are_objects(items: &[Tree]) -> bool
    ensures { result ≡ is_some (all_some as_object (map data_of items.now)) }
{
    for item in items {
        if !matches!(item, Tree::Object(_)) {
            return false;
        }
    }
    true
}
