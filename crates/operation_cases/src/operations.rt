// Chains of handlers as a script sees them (Lua 5.4 manual, 2.4), up to the last link that is followed.
use lua_heap::Strings;
use meta_ops::{
    Callee, Event, Fault, Heap, Operation, Outcome, Stored, callee_of, handler_of, index_of,
    operate, store_of,
};
use object_pool::Pool;
use std::alloc::Global;
use std::test::Fail;
use table_core::{FuncId, Key, StrId, Table, TableId, Value};

/// Tables and strings in memory.
#[derive(Drop)]
struct Memory {
    tables: Pool<Table>,
    strings: Strings,
}

impl Memory {
    /// As many tables without rows.
    fn of(alloc: Global, tables: usize) -> Result<Memory, Fail> {
        let mut memory = Memory {
            tables: Pool::new(alloc),
            strings: Strings::new(alloc),
        };
        for _ in 0..tables {
            memory.tables.reserve(1)?;
            memory.tables.place(Table::new(alloc));
        }
        Ok(memory)
    }

    fn heap(&self) -> Heap<'_> {
        Heap {
            tables: &self.tables,
            strings: &self.strings,
            string_meta: None,
        }
    }

    /// The number of a name, which is short.
    fn name(&mut self, name: &str) -> Result<StrId, Fail> {
        let mut id = StrId(0);
        if name.len() < 100 {
            id = self.strings.intern(name.as_bytes())?;
        }
        Ok(id)
    }

    /// Sets a field of a table.
    fn set(&mut self, table: usize, name: &str, value: Value) -> Result<(), Fail> {
        let name = self.name(name)?;
        if table < self.tables.len() {
            if let Some(key) = Key::of(Value::Str(name)) {
                self.tables.get_mut(table).set(key, value)?;
            }
        }
        Ok(())
    }

    /// Makes a table the metatable of another.
    fn set_metatable(&mut self, table: usize, metatable: usize) {
        if table < self.tables.len() {
            self.tables
                .get_mut(table)
                .set_metatable(Some(TableId(metatable)));
        }
    }
}

#[test]
fn a_missing_field_is_looked_up_in_the_handler(rt: HostRuntime) -> Result<(), Fail> {
    let mut memory = Memory::of(rt.alloc(), 5)?;
    let x = Value::Str(memory.name("x")?);
    let y = Value::Str(memory.name("y")?);
    memory.set(0, "x", Value::Int(1))?;
    memory.set(2, "__index", Value::Table(TableId(0)))?;
    memory.set_metatable(1, 2);
    memory.set(4, "__index", Value::Func(FuncId(7)))?;
    memory.set_metatable(3, 4);
    let heap = memory.heap();
    assert_eq!(rt;
        index_of(heap, Value::Table(TableId(1)), x),
        Outcome::Found(Value::Int(1))
    );
    assert_eq!(rt;
        index_of(heap, Value::Table(TableId(1)), y),
        Outcome::Found(Value::Nil)
    );
    let asked = Outcome::Ask {
        handler: Value::Func(FuncId(7)),
        first: Value::Table(TableId(3)),
    };
    assert_eq!(rt; index_of(heap, Value::Table(TableId(3)), x), asked);
    assert_eq!(rt;
        index_of(heap, Value::Int(5), x),
        Outcome::Fault(Fault::Index(Value::Int(5)))
    );
    assert_eq!(rt; index_of(heap, x, y), Outcome::Fault(Fault::Index(x)));
    Ok(())
}

#[test]
fn strings_share_a_metatable(rt: HostRuntime) -> Result<(), Fail> {
    let mut memory = Memory::of(rt.alloc(), 2)?;
    let len = Value::Str(memory.name("len")?);
    memory.set(0, "len", Value::Prim(3))?;
    memory.set(1, "__index", Value::Table(TableId(0)))?;
    let mut heap = memory.heap();
    heap.string_meta = Some(TableId(1));
    assert_eq!(rt; index_of(heap, len, len), Outcome::Found(Value::Prim(3)));
    Ok(())
}

#[test]
fn a_field_is_written_where_it_is_or_by_the_handler(rt: HostRuntime) -> Result<(), Fail> {
    let mut memory = Memory::of(rt.alloc(), 5)?;
    let x = Value::Str(memory.name("x")?);
    let y = Value::Str(memory.name("y")?);
    memory.set(1, "x", Value::Bool(false))?;
    memory.set(2, "__newindex", Value::Table(TableId(0)))?;
    memory.set_metatable(1, 2);
    memory.set(4, "__newindex", Value::Prim(9))?;
    memory.set_metatable(3, 4);
    let heap = memory.heap();
    assert_eq!(rt;
        store_of(heap, Value::Table(TableId(1)), x),
        Stored::Raw(TableId(1))
    );
    assert_eq!(rt;
        store_of(heap, Value::Table(TableId(1)), y),
        Stored::Raw(TableId(0))
    );
    let asked = Stored::Ask {
        handler: Value::Prim(9),
        object: Value::Table(TableId(3)),
    };
    assert_eq!(rt; store_of(heap, Value::Table(TableId(3)), x), asked);
    assert_eq!(rt;
        store_of(heap, Value::Nil, x),
        Stored::Fault(Fault::Index(Value::Nil))
    );
    Ok(())
}

#[test]
fn two_thousand_links_are_followed(rt: HostRuntime) -> Result<(), Fail> {
    let mut memory = Memory::of(rt.alloc(), 2002)?;
    let x = Value::Str(memory.name("x")?);
    for number in 0..2001 {
        let next = Value::Table(TableId(number + 1));
        memory.set(number, "__index", next)?;
        memory.set(number, "__newindex", next)?;
        memory.set(number, "__call", next)?;
        memory.set_metatable(number, number);
    }
    memory.set(2001, "x", Value::Int(1))?;
    let heap = memory.heap();
    let (first, second) = (Value::Table(TableId(0)), Value::Table(TableId(1)));
    assert_eq!(rt; index_of(heap, second, x), Outcome::Found(Value::Int(1)));
    assert_eq!(rt; index_of(heap, first, x), Outcome::Fault(Fault::IndexChain));
    assert_eq!(rt; store_of(heap, second, x), Stored::Raw(TableId(2001)));
    assert_eq!(rt;
        store_of(heap, first, x),
        Stored::Fault(Fault::NewIndexChain)
    );
    assert_eq!(rt;
        callee_of(heap, second),
        Callee::Fault(Fault::Call(Value::Table(TableId(2001))))
    );
    assert_eq!(rt; callee_of(heap, first), Callee::Fault(Fault::CallChain));
    Ok(())
}

#[test]
fn a_table_is_called_by_its_handler(rt: HostRuntime) -> Result<(), Fail> {
    let mut memory = Memory::of(rt.alloc(), 2)?;
    memory.set(1, "__call", Value::Func(FuncId(2)))?;
    memory.set_metatable(0, 1);
    let heap = memory.heap();
    let found = Callee::Function {
        function: Value::Func(FuncId(2)),
        links: 1,
    };
    assert_eq!(rt; callee_of(heap, Value::Table(TableId(0))), found);
    assert_eq!(rt;
        callee_of(heap, Value::Nil),
        Callee::Fault(Fault::Call(Value::Nil))
    );
    Ok(())
}

#[test]
fn the_left_handler_comes_first(rt: HostRuntime) -> Result<(), Fail> {
    let mut memory = Memory::of(rt.alloc(), 2)?;
    memory.set(0, "__add", Value::Prim(1))?;
    memory.set_metatable(0, 0);
    memory.set(1, "__add", Value::Prim(2))?;
    memory.set(1, "__sub", Value::Prim(3))?;
    memory.set_metatable(1, 1);
    let heap = memory.heap();
    let (left, right) = (Value::Table(TableId(0)), Value::Table(TableId(1)));
    assert_eq!(rt;
        handler_of(heap, Event::Add, left, right),
        Some(Value::Prim(1))
    );
    assert_eq!(rt;
        handler_of(heap, Event::Add, Value::Int(1), right),
        Some(Value::Prim(2))
    );
    assert_eq!(rt;
        handler_of(heap, Event::Sub, left, right),
        Some(Value::Prim(3))
    );
    assert_eq!(rt; handler_of(heap, Event::Mul, left, right), None);
    Ok(())
}

#[test]
fn a_store_and_a_concatenation_take_memory(rt: HostRuntime) -> Result<(), Fail> {
    let alloc = rt.alloc();
    let mut memory = Memory::of(alloc, 1)?;
    let (object, key) = (Value::Table(TableId(0)), Value::Bool(true));
    let store = Operation::Store {
        object,
        key,
        value: Value::Int(7),
    };
    let tables = &mut memory.tables;
    let strings = &mut memory.strings;
    let stored = operate(alloc, tables, strings, None, store)?;
    assert_eq!(rt; stored, Outcome::Done);
    let index = Operation::Index { object, key };
    let found = operate(alloc, tables, strings, None, index)?;
    assert_eq!(rt; found, Outcome::Found(Value::Int(7)));
    let concat = Operation::Concat {
        left: Value::Int(-7),
        right: Value::Int(8),
    };
    let joined = operate(alloc, tables, strings, None, concat)?;
    assert_eq!(rt; joined, Outcome::Found(Value::Str(StrId(0))));
    assert_eq!(rt; strings.find(b"-78"), Some(StrId(0)));
    Ok(())
}

#[test]
fn faults_have_their_texts(rt: HostRuntime) -> Result<(), Fail> {
    let alloc = rt.alloc();
    let arithmetic = Fault::Arithmetic(Value::Table(TableId(0))).text(alloc)?;
    assert_eq!(rt;
        arithmetic.as_slice(),
        b"attempt to perform arithmetic on a table value".as_slice()
    );
    let order = Fault::Compare(Value::Int(1), Value::Nil).text(alloc)?;
    assert_eq!(rt;
        order.as_slice(),
        b"attempt to compare number with nil".as_slice()
    );
    let order = Fault::Compare(Value::Prim(0), Value::Func(FuncId(0))).text(alloc)?;
    assert_eq!(rt;
        order.as_slice(),
        b"attempt to compare two function values".as_slice()
    );
    let remainder = Fault::ModuloByZero.text(alloc)?;
    assert_eq!(rt;
        remainder.as_slice(),
        b"attempt to perform 'n%%0'".as_slice()
    );
    Ok(())
}
