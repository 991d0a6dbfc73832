// What the commands of a site file have described so far.
ghost use Rattle.site.specs.Drafts.{described, Limited};

use crate::tables::Tables;

mod methods;

// Tables that fine commands have filled, so that they keep to the limits.
#[derive(Clone, Copy)]
pub(crate) struct Draft {
    tables: Tables,
    ghost limited: { Limited (described tables) },
}
