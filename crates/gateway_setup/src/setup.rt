use crate::sent_lists::SentLists;
use reply_texts::RdbName;
use server_list::ServerList;

/// What a gateway begins with.
#[derive(Clone, Copy, Debug)]
pub struct Setup {
    /// The relational database that applications name.
    pub rdb: RdbName,
    /// How many transports may be lent at a time, 1 to 32.
    pub cap: u32,
    /// The members, with the weights that count until a member sends a list.
    pub list: ServerList,
    /// What each member sends.
    pub sent_lists: SentLists,
}
