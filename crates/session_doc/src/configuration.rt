//! Sites from configurations.
ghost use Rattle.std.specs.Prelude.{◌≡◌, IfErr, IfOk, Ok};
ghost use Rattle.spec_json.specs.Json.{value};
ghost use Rattle.spec_site.specs.Configuration.{configured, site_in, site_read};
ghost use Rattle.spec_json.specs.TreeData.{data_of};
ghost use Rattle.session_doc.specs.Reports.{Reports};

use crate::accounts::read_accounts;
use crate::base_url::read_base_url;
use crate::configuration_error::{ConfigurationError, bad};
use crate::generation::read_generation;
use crate::site::Site;
use crate::users::read_users;
use crate::web_socket_url::read_web_socket_url;
use crate::zones::read_zones;
use json_edge::read::{ReadError, read_tree};
use spec_json::tree::Tree;
use spec_site::field::Field;
use spec_site::limits::MAX_CONFIGURATION_BYTES;
use std::alloc::Global;
use std::sync::Arc;

impl Site {
    /// Reads a configuration: a JSON object of at most 1,000,000 bytes, whose numbers are whole.
    ///
    /// Unknown members are ignored. Takes memory for the site, and until it returns for the JSON value.
    pub fn read(alloc: Global, bytes: &[u8]) -> Result<Site, ConfigurationError>
        ensures ok { IfOk result (λ site. configured bytes.now ≡ Ok site) }
        ensures err { IfErr result (λ error. Reports error (configured bytes.now)) }
    {
        if bytes.len() > MAX_CONFIGURATION_BYTES {
            return Err(bad(Field::Json, 0));
        }
        match read_tree(alloc, bytes) {
            Ok(tree) => read_value(alloc, &tree),
            Err(ReadError::NoMemory) => Err(ConfigurationError::NoMemory),
            Err(ReadError::NotJson | ReadError::NotWhole) => Err(bad(Field::Json, 0)),
        }
    }
}

fn read_value(alloc: Global, tree: &Tree) -> Result<Site, ConfigurationError>
    ensures ok { IfOk result (λ site. site_read (value (data_of tree.now)) ≡ Ok site) }
    ensures err { IfErr result (λ error. Reports error (site_read (value (data_of tree.now)))) }
{
    match tree {
        Tree::Object(_) => read_fields(alloc, tree),
        _ => Err(bad(Field::Json, 0)),
    }
}

// The fields, in order.
fn read_fields(alloc: Global, tree: &Tree) -> Result<Site, ConfigurationError>
    ensures ok { IfOk result (λ site. site_in (data_of tree.now) ≡ Ok site) }
    ensures err { IfErr result (λ error. Reports error (site_in (data_of tree.now))) }
{
    let base_url = read_base_url(tree)?;
    let accounts = read_accounts(alloc, tree)?;
    let users = read_users(alloc, &accounts, tree)?;
    let zones = Arc::new(alloc, read_zones(alloc, tree)?)?;
    let generation = read_generation(tree)?;
    let web_socket_url = read_web_socket_url(tree)?;
    Ok(Site::new(base_url, accounts, users, zones, generation, web_socket_url))
}
