//! Stores that are made over connections in memory, of which each has something else.

use super::openings::{Held, held_by};
use osm_databases::stores::{make_store, make_where_none};
use osm_rows::{BlobReader, StoreFault};
use sqlite::{Alter, Connection, MemStore};
use std::alloc::Global;
use std::test::*;
use store_vectors::deliveries::answers_to;
use store_vectors::fixtures::TAGGED_FILE;
use store_vectors::memory::{BodiesInMemory, TablesInMemory};

/// What the store holds that is made, or why none is.
type Outcome = Result<Held, StoreFault>;

const NO_STORE: Outcome = Err(StoreFault::NotThisStore(None));

const OF_BLOCKS: Outcome = Err(StoreFault::NotThisStore(Some(1)));

const OF_ROWS: Outcome = Err(StoreFault::NotThisStore(Some(2)));

/// What a store over trees holds.
fn by_trees<R: BlobReader + Drop>(alloc: Global, mut store: R) -> Held {
    held_by(alloc, &mut store)
}

/// Makes a store. `Full` stands for a transaction that is open.
fn makes<S: Alter + Drop>(alloc: Global, connection: Connection<S>) -> Outcome {
    if !connection.is_autocommit() {
        return Err(StoreFault::Full);
    }
    Ok(by_trees(alloc, make_store(connection)?))
}

/// Makes one where the connection has none.
fn makes_where_none<S: Alter + Drop>(alloc: Global, connection: Connection<S>) -> Outcome {
    if !connection.is_autocommit() {
        return Err(StoreFault::Full);
    }
    Ok(by_trees(alloc, make_where_none(connection)?))
}

/// What a connection in memory has.
#[derive(Clone, Copy, Debug)]
enum Content {
    Nothing,
    /// A store of rows that holds the file of three frames.
    Rows,
    /// The same of blocks.
    Blocks,
    /// A table of another program.
    Stranger,
}

fn connection_with(alloc: Global, content: Content) -> Result<Connection<MemStore>, Fail> {
    match content {
        Content::Nothing => Ok(Connection::open_in_memory(alloc)?),
        Content::Rows => {
            let (_, store): (_, TablesInMemory) = answers_to(alloc, TAGGED_FILE)?;
            Ok(store.into_connection())
        }
        Content::Blocks => {
            let (_, store): (_, BodiesInMemory) = answers_to(alloc, TAGGED_FILE)?;
            Ok(store.into_connection())
        }
        Content::Stranger => {
            let mut connection = Connection::open_in_memory(alloc)?;
            connection.execute_batch(STRANGER)?;
            Ok(connection)
        }
    }
}

/// A database of another program.
const STRANGER: &str = "CREATE TABLE place (name TEXT); INSERT INTO place VALUES ('Vaduz')";

/// What comes of making a store, and of making one where there is none.
fn expected(content: Content) -> [Outcome; 2] {
    match content {
        Content::Nothing => [Ok(Held::Nothing); 2],
        Content::Rows => [NO_STORE, OF_ROWS],
        Content::Blocks => [NO_STORE, OF_BLOCKS],
        Content::Stranger => [NO_STORE, NO_STORE],
    }
}

#[test]
fn stores_that_are_made(rt: HostRuntime) -> Result<(), Fail> {
    const CONTENTS: &[Content] = &[
        Content::Nothing,
        Content::Rows,
        Content::Blocks,
        Content::Stranger,
    ];
    let alloc = rt.alloc();
    for content in CONTENTS {
        let [making, where_none] = expected(*content);
        let made = makes(alloc, connection_with(alloc, *content)?);
        assert!(rt; made == making, "{content:?} {made:?}");
        let made = makes_where_none(alloc, connection_with(alloc, *content)?);
        assert!(rt; made == where_none, "{content:?} {made:?}");
    }
    Ok(())
}
