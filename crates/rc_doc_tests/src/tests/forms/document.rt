//! A document with every type, variant and field. Each instruction value is in its printing form.

/// The document.
pub const DOCUMENT: &str = r#"{
"hir": {
  "span": [0, 99], "id": "f", "name_hint": "g", "generator": true, "is_async": true,
    "directives": ["use memo"],
  "params": [{"k": "Place", "v": 0}, {"k": "Spread", "v": {"place": [1, "Unknown", false]}}],
  "context": [2, [3, "Capture", false], [4, "Read", false, [1, 2]]],
  "body": {"entry": 0, "blocks": [
    {"key": 0, "id": 0, "instructions": [0, 1],
      "terminal": {"k": "If", "test": 0, "consequent": 1, "alternate": 2, "fallthrough": 3, "id": 1,
        "span": [1, 2]}},
    {"key": null, "id": 1, "instructions": [],
      "terminal": {"k": "Branch", "test": 0, "consequent": 1, "alternate": 2, "id": 2, "span": [1, 2]}},
    {"id": 2, "terminal":
      {"k": "Logical", "operator": "And", "test": 1, "fallthrough": 2, "id": 3, "span": [1, 2]}},
    {"id": 3, "terminal": {"k": "Logical", "operator": "Or", "test": 1, "fallthrough": 2, "id": 4}},
    {"id": 4, "terminal": {"k": "Logical", "operator": "Coalesce", "test": 1, "fallthrough": 2, "id": 5}},
    {"id": 5, "terminal": {"k": "Ternary", "test": 1, "fallthrough": 2, "id": 6, "span": [1, 2]}},
    {"id": 6, "terminal": {"k": "Optional", "optional": true, "test": 1, "fallthrough": 2, "id": 7,
      "span": [1, 2]}},
    {"id": 7, "terminal": {"k": "Sequence", "block": 1, "fallthrough": 2, "id": 8, "span": [1, 2]}},
    {"id": 8, "terminal": {"k": "Throw", "value": [0, "Freeze", false], "id": 9, "span": [1, 2]}},
    {"id": 9, "terminal": {"k": "Return", "value": [0, "Freeze", true, [1, 2]], "id": 10, "span": [1, 2]}},
    {"id": 10, "terminal": {"k": "Goto", "block": 1, "variant": "Break", "id": 11, "span": [1, 2]}},
    {"id": 11, "terminal": {"k": "Goto", "block": 1, "variant": "Continue", "id": 12}},
    {"id": 12, "terminal": {"k": "Goto", "block": 1, "variant": "Try", "id": 13}},
    {"id": 13, "terminal": {"k": "Switch", "test": 0, "fallthrough": 3, "id": 14, "span": [1, 2],
      "cases": [{"test": 1, "block": 1}, {"test": null, "block": 2}, {"block": 3}]}},
    {"id": 14, "terminal":
      {"k": "DoWhile", "loop_block": 1, "test": 2, "fallthrough": 3, "id": 15, "span": [1, 2]}},
    {"id": 15, "terminal": {"k": "While", "test": 1, "loop_block": 2, "fallthrough": 3, "id": 16,
      "span": [1, 2]}},
    {"id": 16, "terminal": {"k": "For", "init": 1, "test": 2, "update": 3, "loop_block": 4,
      "fallthrough": 5,
      "id": 17, "span": [1, 2]}},
    {"id": 17, "terminal":
      {"k": "ForOf", "init": 1, "test": 2, "loop_block": 3, "fallthrough": 4, "id": 18, "span": [1, 2]}},
    {"id": 18, "terminal": {"k": "ForIn", "init": 1, "loop_block": 2, "fallthrough": 3, "id": 19,
      "span": [1, 2]}},
    {"id": 19, "terminal": {"k": "Label", "block": 1, "fallthrough": 2, "id": 20, "span": [1, 2]}},
    {"id": 20, "terminal": {"k": "Unreachable", "id": 21, "span": [1, 2]}},
    {"id": 21, "terminal": {"k": "MaybeThrow", "continuation": 1, "handler": 2, "id": 22, "span": [1, 2]}},
    {"id": 22, "terminal": {"k": "Scope", "fallthrough": 1, "block": 2, "scope": 0, "id": 23, "span": [1,
      2]}},
    {"id": 23, "terminal": {"k": "PrunedScope", "fallthrough": 1, "block": 2, "scope": 1, "id": 24,
      "span": [1, 2]}},
    {"id": 24, "terminal":
      {"k": "Try", "block": 1, "handler_binding": 0, "handler": 2, "fallthrough": 3, "id": 25, "span": [1,
        2]}}
  ]},
  "instructions": [
    {"id": 1, "lvalue": 1, "span": [1, 2], "value":
      {"k": "LoadLocal", "place": [0, "Mutate", true], "span": [1, 2]}},
    {"id": 2, "lvalue": [1, "Store", true], "span": null, "value":
      {"k": "LoadContext", "place": [0, "Read", false, [3, 4]], "span": [1, 2]}},
    {"id": 3, "lvalue": [1, "ConditionallyMutate", false, [5, 6]], "value":
      {"k": "DeclareLocal", "lvalue": {"kind": "Let", "place": 2}, "span": [1, 2]}},
    {"id": 4, "lvalue": 1, "value":
      {"k": "DeclareContext", "lvalue": {"kind": "HoistedConst", "place": 2}, "span": [1, 2]}},
    {"id": 5, "lvalue": 1, "value":
      {"k": "StoreLocal", "lvalue": {"kind": "Const", "place": 2}, "value": 0, "span": [1, 2]}},
    {"id": 6, "lvalue": 1, "value":
      {"k": "StoreContext", "lvalue": {"kind": "Reassign", "place": 2}, "value": 0, "span": [1, 2]}},
    {"id": 7, "lvalue": 1, "value": {"k": "StoreLocal", "lvalue": {"kind": "Catch", "place": 2},
      "value": 0}},
    {"id": 8, "lvalue": 1, "value": {"k": "StoreLocal", "lvalue": {"kind": "Function", "place": 2},
      "value": 0}},
    {"id": 9, "lvalue": 1, "value": {"k": "StoreLocal", "lvalue": {"kind": "HoistedLet", "place": 2},
      "value": 0}},
    {"id": 10, "lvalue": 1, "value":
      {"k": "StoreLocal", "lvalue": {"kind": "HoistedFunction", "place": 2}, "value": 0}},
    {"id": 11, "lvalue": 1, "value": {"k": "Destructure", "value": 0, "span": [1, 2],
      "lvalue": {"kind": "Const",
      "pattern": {"k": "Array", "items": [{"k": "Place", "v": 2}, "Hole", {"k": "Spread",
        "v": {"place": 3}}]}}}},
    {"id": 12, "lvalue": 1, "value": {"k": "Destructure", "value": 0, "lvalue": {"kind": "Let",
      "pattern": {"k": "Object", "properties": [
        {"k": "Property", "v": {"key": {"k": "Identifier", "v": "a"}, "place": 2}},
        {"k": "Spread", "v": {"place": 3}}]}}}},
    {"id": 13, "lvalue": 1, "value": {"k": "Primitive", "value": "Null", "span": [1, 2]}},
    {"id": 14, "lvalue": 1, "value": {"k": "Primitive", "value": "Undefined"}},
    {"id": 15, "lvalue": 1, "value": {"k": "Primitive", "value": {"k": "Boolean", "v": true}}},
    {"id": 16, "lvalue": 1, "value": {"k": "Primitive", "value": {"k": "Number", "v": "1e3"}}},
    {"id": 17, "lvalue": 1, "value": {"k": "Primitive", "value": {"k": "String", "v": "\"\n"}}},
    {"id": 18, "lvalue": 1, "value": {"k": "JSXText", "value": "text", "span": [1, 2]}},
    {"id": 19, "lvalue": 1, "value":
      {"k": "BinaryExpression", "operator": "+", "left": 0, "right": 1, "span": [1, 2]}},
    {"id": 20, "lvalue": 1, "value": {"k": "UnaryExpression", "operator": "!", "value": 0, "span": [1, 2]}},
    {"id": 21, "lvalue": 1, "value": {"k": "TypeCastExpression", "value": 0, "annotation": "T", "span": [1,
      2]}},
    {"id": 22, "lvalue": 1, "value": {"k": "Await", "value": 0, "span": [1, 2]}},
    {"id": 23, "lvalue": 1, "value":
      {"k": "NewExpression", "callee": 0, "args": [{"k": "Place", "v": 1}], "span": [1, 2]}},
    {"id": 24, "lvalue": 1, "value": {"k": "CallExpression", "callee": [0, "ConditionallyMutateIterator",
      false],
      "args": [{"k": "Place", "v": 1}, {"k": "Spread", "v": {"place": 2}}], "span": [1, 2]}},
    {"id": 25, "lvalue": 1, "value": {"k": "MethodCall", "receiver": 0, "property": 1,
      "args": [{"k": "Place", "v": 2}], "span": [1, 2]}},
    {"id": 26, "lvalue": 1, "value": {"k": "ObjectExpression", "span": [1, 2], "properties": [
      {"k": "Property", "v": {"key": {"k": "String", "v": "a"}, "place": 0}},
      {"k": "Property", "v": {"key": {"k": "Number", "v": "1"}, "place": 0}},
      {"k": "Property", "v": {"key": {"k": "Computed", "v": 1}, "place": 0}},
      {"k": "Spread", "v": {"place": 2}}]}},
    {"id": 27, "lvalue": 1, "value": {"k": "ObjectMethod", "lowered_func": {"func": 0}, "span": [1, 2]}},
    {"id": 28, "lvalue": 1, "value":
      {"k": "FunctionExpression", "name": "g", "lowered_func": {"func": 0}, "span": [1, 2]}},
    {"id": 29, "lvalue": 1, "value": {"k": "ArrayExpression", "span": [1, 2],
      "elements": [{"k": "Place", "v": 0}, "Hole", {"k": "Spread", "v": {"place": 1}}]}},
    {"id": 30, "lvalue": 1, "value": {"k": "JsxExpression", "tag": {"k": "Place", "v": 0}, "children": [1,
      2],
      "props": [{"k": "Attribute", "name": "a", "place": 1}, {"k": "SpreadAttribute", "argument": 2}],
      "span": [1, 2]}},
    {"id": 31, "lvalue": 1, "value":
      {"k": "JsxExpression", "tag": {"k": "Builtin", "v": "div"}, "children": [], "props": []}},
    {"id": 32, "lvalue": 1, "value": {"k": "JsxFragment", "children": [0, 1], "span": [1, 2]}},
    {"id": 33, "lvalue": 1, "value": {"k": "RegExpLiteral", "pattern": "a", "flags": "g", "span": [1, 2]}},
    {"id": 34, "lvalue": 1, "value": {"k": "MetaProperty", "meta": "import", "property": "meta", "span": [1,
      2]}},
    {"id": 35, "lvalue": 1, "value":
      {"k": "PropertyLoad", "object": 0, "property": {"k": "String", "v": "a"}, "span": [1, 2]}},
    {"id": 36, "lvalue": 1, "value":
      {"k": "PropertyDelete", "object": 0, "property": {"k": "Number", "v": "1"}, "span": [1, 2]}},
    {"id": 37, "lvalue": 1, "value":
      {"k": "PropertyStore", "object": 0, "property": {"k": "String", "v": "a"}, "value": 1, "span": [1,
        2]}},
    {"id": 38, "lvalue": 1, "value": {"k": "ComputedLoad", "object": 0, "property": 1, "span": [1, 2]}},
    {"id": 39, "lvalue": 1, "value": {"k": "ComputedDelete", "object": 0, "property": 1, "span": [1, 2]}},
    {"id": 40, "lvalue": 1, "value":
      {"k": "ComputedStore", "object": 0, "property": 1, "value": 2, "span": [1, 2]}},
    {"id": 41, "lvalue": 1, "value":
      {"k": "LoadGlobal", "binding": {"k": "Global", "name": "g"}, "span": [1, 2]}},
    {"id": 42, "lvalue": 1, "value": {"k": "LoadGlobal", "binding": {"k": "Module", "name": "g",
      "module": "m"}}},
    {"id": 43, "lvalue": 1, "value": {"k": "StoreGlobal", "name": "g", "value": 0, "span": [1, 2]}},
    {"id": 44, "lvalue": 1, "value": {"k": "TaggedTemplateExpression", "tag": 0, "quasi": "q", "span": [1,
      2]}},
    {"id": 45, "lvalue": 1, "value":
      {"k": "TemplateLiteral", "subexprs": [0], "quasis": ["q", "r"], "span": [1, 2]}},
    {"id": 46, "lvalue": 1, "value": {"k": "GetIterator", "collection": 0, "span": [1, 2]}},
    {"id": 47, "lvalue": 1, "value": {"k": "IteratorNext", "iterator": 0, "collection": 1, "span": [1, 2]}},
    {"id": 48, "lvalue": 1, "value": {"k": "NextPropertyOf", "value": 0, "span": [1, 2]}},
    {"id": 49, "lvalue": 1, "value":
      {"k": "PrefixUpdate", "lvalue": 2, "operation": "++", "value": 0, "span": [1, 2]}},
    {"id": 50, "lvalue": 1, "value":
      {"k": "PostfixUpdate", "lvalue": 2, "operation": "--", "value": 0, "span": [1, 2]}},
    {"id": 51, "lvalue": 1, "value": {"k": "Debugger", "span": [1, 2]}},
    {"id": 52, "lvalue": 1, "value": {"k": "StartMemoize", "manual_memo_id": 0, "deps": [0, 1], "span": [1,
      2]}},
    {"id": 53, "lvalue": 1, "value":
      {"k": "FinishMemoize", "manual_memo_id": 0, "decl": 0, "pruned": true, "span": [1, 2]}}
  ]
},
"env": {
  "identifiers": [
    {"declaration_id": 0, "name": {"k": "Named", "v": "a"}, "scope": 0, "type_": 0, "span": [1, 2]},
    {"declaration_id": 1, "name": {"k": "Promoted", "v": "b"}, "scope": null, "type_": 1, "span": null},
    {"declaration_id": 2, "name": null, "type_": 2}, {"declaration_id": 3, "type_": 3},
      {"declaration_id": 4, "type_": 4}
  ],
  "types": [
    "Primitive", "Other", {"k": "Object"}, {"k": "Object", "shape": null}, {"k": "Function"},
    {"k": "Object", "shape": "Array"}, {"k": "Object", "shape": "Object"}, {"k": "Object",
      "shape": "Function"},
    {"k": "Object", "shape": "Jsx"}, {"k": "Object", "shape": "UseRef"}, {"k": "Function",
      "shape": "SetState"},
    {"k": "Function", "shape": "SetActionState"}, {"k": "Function", "shape": "Dispatch"},
    {"k": "Function", "shape": "StartTransition"}, {"k": "Function", "shape": "SetOptimistic"},
    {"k": "Function", "shape": {"k": "Row", "v": 0}}
  ],
  "scopes": [
    {"range": {"start": 1, "end": 9}, "reassignments": [1, 2], "merged": [1],
      "dependencies": [
        {"identifier": 0, "reactive": true, "span": [1, 2], "path": [
          {"property": {"k": "String", "v": "a"}, "optional": true},
          {"property": {"k": "Number", "v": "0"}, "optional": false},
          {"property": {"k": "String", "v": "b"}}]},
        {"identifier": 1, "reactive": false, "span": null, "path": []}, {"identifier": 2}],
      "declarations": [{"key": 0, "value": {"identifier": 1, "scope": 0}}],
      "early_return_value": {"value": 0, "span": [1, 2], "label": 1}},
    {"range": {"start": 1, "end": 9}, "reassignments": [], "merged": [], "dependencies": [],
      "declarations": [],
      "early_return_value": null},
    {"range": {"start": 1, "end": 9}}
  ],
  "functions": [
    {"body": {"entry": 0, "blocks": [{"id": 0, "terminal": {"k": "Unreachable", "id": 1, "span": null}}]}},
    {"span": null, "id": null, "name_hint": null, "params": [], "generator": false, "is_async": false,
      "context": [],
      "body": {"entry": 0, "blocks": []}, "instructions": [], "directives": []}
  ],
  "shapes": [{"hook": true, "no_alias": true}, {"hook": false}, {}],
  "config": {"enable_forest": true, "enable_preserve_existing_memoization_guarantees": true},
    "next_block": 25
}
}"#;
