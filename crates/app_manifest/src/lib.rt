//! Application manifests: what the JSON of one states, and which may take the place of another.
#![tactic(auto)]

mod checks;
mod fault;
mod fields;
mod forms;
mod lists;
mod manifest;
mod read;
mod reading;
mod roles;
mod sameness;
mod upgrading;

pub use checks::{double_name, second_default};
pub use fault::{ManifestError, ManifestFault};
pub use fields::{flag_from, flags_from, text_from, title_from};
pub use forms::{is_permission_name, is_title};
pub use manifest::{Descriptors, Manifest, PermissionDef, Permissions, Roles};
pub use reading::manifest_from;
pub use upgrading::{gives_no_less, upgrade};
