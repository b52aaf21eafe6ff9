// What metadata holds.
use px_tables::Row;
use sqlite_items::Items;

/// What metadata holds: the rows of each table by the table's number, and the heaps of strings, of user strings and of blobs.
#[derive(Drop)]
pub struct Content {
    pub rows: Items<Items<Row>>,
    pub strings: Items<u8>,
    pub user_strings: Items<u8>,
    pub blob: Items<u8>,
}
